ghost use Rattle.std.specs.Prelude.{◌≡◌};
ghost use Rattle.mvm_isolate.specs.Thrown.{name_of_thrown, place_of_thrown};

use mvm_base::List;
use mvm_native::Thrown;

/// Every throwable of the machine's own, in the order in which [`Thrown`] has them.
pub(crate) const ALL_THROWN: [Thrown; 28] = [
    Thrown::ArithmeticException,
    Thrown::ArrayStoreException,
    Thrown::ClassCastException,
    Thrown::IllegalArgumentException,
    Thrown::NumberFormatException,
    Thrown::IllegalThreadStateException,
    Thrown::IllegalMonitorStateException,
    Thrown::IllegalStateException,
    Thrown::ArrayIndexOutOfBoundsException,
    Thrown::StringIndexOutOfBoundsException,
    Thrown::NegativeArraySizeException,
    Thrown::NullPointerException,
    Thrown::ClosedLinkException,
    Thrown::ClassCircularityError,
    Thrown::ClassFormatError,
    Thrown::UnsupportedClassVersionError,
    Thrown::ExceptionInInitializerError,
    Thrown::IncompatibleClassChangeError,
    Thrown::AbstractMethodError,
    Thrown::IllegalAccessError,
    Thrown::InstantiationError,
    Thrown::NoSuchFieldError,
    Thrown::NoSuchMethodError,
    Thrown::NoClassDefFoundError,
    Thrown::UnsatisfiedLinkError,
    Thrown::VerifyError,
    Thrown::OutOfMemoryError,
    Thrown::StackOverflowError,
];

/// The numbers of the classes of which the machine itself makes objects.
#[derive(Debug, Drop)]
pub(crate) struct Known {
    /// `java/lang/String`.
    pub(crate) string: u32,
    /// `java/lang/Object`.
    pub(crate) object: u32,
    /// `java/lang/Class`.
    pub(crate) class: u32,
    /// `java/io/PrintStream`.
    pub(crate) stream: u32,
    /// `java/lang/Thread`.
    pub(crate) thread: u32,
    /// The classes of what it throws, in the order of [`ALL_THROWN`].
    pub(crate) thrown: List<u32>,
}

/// The name of the class of a throwable of the machine's own.
#[tactic(auto, unfolding(crate::specs::Thrown::name_of_thrown))]
pub(crate) fn name_of_thrown(thrown: Thrown) -> &'static str
    ensures { result.now ≡ name_of_thrown thrown }
{
    match thrown {
        Thrown::ArithmeticException => "java/lang/ArithmeticException",
        Thrown::ArrayStoreException => "java/lang/ArrayStoreException",
        Thrown::ClassCastException => "java/lang/ClassCastException",
        Thrown::IllegalArgumentException => "java/lang/IllegalArgumentException",
        Thrown::NumberFormatException => "java/lang/NumberFormatException",
        Thrown::IllegalThreadStateException => "java/lang/IllegalThreadStateException",
        Thrown::IllegalMonitorStateException => "java/lang/IllegalMonitorStateException",
        Thrown::IllegalStateException => "java/lang/IllegalStateException",
        Thrown::ArrayIndexOutOfBoundsException => "java/lang/ArrayIndexOutOfBoundsException",
        Thrown::StringIndexOutOfBoundsException => "java/lang/StringIndexOutOfBoundsException",
        Thrown::NegativeArraySizeException => "java/lang/NegativeArraySizeException",
        Thrown::NullPointerException => "java/lang/NullPointerException",
        Thrown::ClosedLinkException => "javax/isolate/ClosedLinkException",
        Thrown::ClassCircularityError => "java/lang/ClassCircularityError",
        Thrown::ClassFormatError => "java/lang/ClassFormatError",
        Thrown::UnsupportedClassVersionError => "java/lang/UnsupportedClassVersionError",
        Thrown::ExceptionInInitializerError => "java/lang/ExceptionInInitializerError",
        Thrown::IncompatibleClassChangeError => "java/lang/IncompatibleClassChangeError",
        Thrown::AbstractMethodError => "java/lang/AbstractMethodError",
        Thrown::IllegalAccessError => "java/lang/IllegalAccessError",
        Thrown::InstantiationError => "java/lang/InstantiationError",
        Thrown::NoSuchFieldError => "java/lang/NoSuchFieldError",
        Thrown::NoSuchMethodError => "java/lang/NoSuchMethodError",
        Thrown::NoClassDefFoundError => "java/lang/NoClassDefFoundError",
        Thrown::UnsatisfiedLinkError => "java/lang/UnsatisfiedLinkError",
        Thrown::VerifyError => "java/lang/VerifyError",
        Thrown::OutOfMemoryError => "java/lang/OutOfMemoryError",
        Thrown::StackOverflowError => "java/lang/StackOverflowError",
    }
}

/// The place of a throwable in [`ALL_THROWN`].
#[tactic(auto, unfolding(crate::specs::Thrown::place_of_thrown))]
pub(crate) fn place_of_thrown(thrown: Thrown) -> usize
    ensures { result ≡ place_of_thrown thrown }
{
    match thrown {
        Thrown::ArithmeticException => 0,
        Thrown::ArrayStoreException => 1,
        Thrown::ClassCastException => 2,
        Thrown::IllegalArgumentException => 3,
        Thrown::NumberFormatException => 4,
        Thrown::IllegalThreadStateException => 5,
        Thrown::IllegalMonitorStateException => 6,
        Thrown::IllegalStateException => 7,
        Thrown::ArrayIndexOutOfBoundsException => 8,
        Thrown::StringIndexOutOfBoundsException => 9,
        Thrown::NegativeArraySizeException => 10,
        Thrown::NullPointerException => 11,
        Thrown::ClosedLinkException => 12,
        Thrown::ClassCircularityError => 13,
        Thrown::ClassFormatError => 14,
        Thrown::UnsupportedClassVersionError => 15,
        Thrown::ExceptionInInitializerError => 16,
        Thrown::IncompatibleClassChangeError => 17,
        Thrown::AbstractMethodError => 18,
        Thrown::IllegalAccessError => 19,
        Thrown::InstantiationError => 20,
        Thrown::NoSuchFieldError => 21,
        Thrown::NoSuchMethodError => 22,
        Thrown::NoClassDefFoundError => 23,
        Thrown::UnsatisfiedLinkError => 24,
        Thrown::VerifyError => 25,
        Thrown::OutOfMemoryError => 26,
        Thrown::StackOverflowError => 27,
    }
}
