ghost use Rattle.std.specs.Prelude.{◌≡◌};
ghost use Rattle.mvm_native.specs.Machine.{gives, gives_truth};

use mvm_base::Word;
use mvm_history::{Ask, LimitKind, Message};

/// A throwable of the machine's own, by the name of its class.
#[derive(Clone, Copy, Debug, PartialEq, Eq)]
pub enum Thrown {
    /// A division by zero.
    ArithmeticException,
    /// An array was to hold what is no instance of its element type.
    ArrayStoreException,
    /// A reference is no instance of the class that it was cast to.
    ClassCastException,
    /// An argument that a method does not take.
    IllegalArgumentException,
    /// A text that is no number.
    NumberFormatException,
    /// A thread was to start a second time.
    IllegalThreadStateException,
    /// A thread does not own the monitor.
    IllegalMonitorStateException,
    /// A call at a time when it can't be made.
    IllegalStateException,
    /// A place outside an array.
    ArrayIndexOutOfBoundsException,
    /// A place outside a text.
    StringIndexOutOfBoundsException,
    /// An array was to have fewer than no items.
    NegativeArraySizeException,
    /// Null, where an object is needed.
    NullPointerException,
    /// The link is closed on this side.
    ClosedLinkException,
    /// A class is its own super.
    ClassCircularityError,
    /// The bytes of a class are no class file.
    ClassFormatError,
    /// The class file is of another version.
    UnsupportedClassVersionError,
    /// A class initializer ended with an exception.
    ExceptionInInitializerError,
    /// A class is not what its users take it for.
    IncompatibleClassChangeError,
    /// The method has no code.
    AbstractMethodError,
    /// A member or a class may not be seen from there.
    IllegalAccessError,
    /// An interface or an abstract class was to have an object.
    InstantiationError,
    /// There is no such field.
    NoSuchFieldError,
    /// There is no such method.
    NoSuchMethodError,
    /// There is no such class, or its initialization failed.
    NoClassDefFoundError,
    /// There is no such native method.
    UnsatisfiedLinkError,
    /// Code that keeps not to the rules of its instructions.
    VerifyError,
    /// The heap has fewer words left than are wanted. It is an object that is set aside, and not a new one.
    OutOfMemoryError,
    /// The thread has fewer frames left than are wanted. It is an object that is set aside, and not a new one.
    StackOverflowError,
}

/// What a call wants of the world outside its isolate. It has changed nothing yet.
#[derive(Debug, Drop)]
pub enum Act {
    /// To send a message over a link.
    Offer {
        /// The number of the link.
        link: u32,
        /// A copy of what is sent.
        message: Message,
    },
    /// To receive a message over a link.
    Receive {
        /// The number of the link.
        link: u32,
    },
    /// To ask something of the machine.
    Ask(Ask),
}

/// What a native method answers.
#[derive(Debug, Drop)]
pub enum Out {
    /// It returned, with this value or without one.
    Value(Option<Word>),
    /// It throws this.
    Throw(Thrown),
    /// Its thread does this, and goes on once it is done.
    Act(Act),
    /// The thread whose object has this number is to start.
    Start(u32),
    /// The calling thread is to go on once the thread of this number has ended.
    Join(u32),
    /// The calling thread waits on the object of this number. It stands behind all others that wait; its monitor is still its own.
    Wait(u32),
    /// The thread that waits longest on the object of this number wakes, or, where the second is true, all that wait on it. They
    /// still stand among those that wait.
    Notify(u32, bool),
    /// It returns the object of the calling thread.
    Current,
    /// The isolate ends with this status.
    Exit(i32),
    /// The isolate ends, since it would pass this limit.
    Limit(LimitKind),
}

/// A value.
pub fn gives(word: Word) -> Out
    ensures { result ≡ gives word }
{
    Out::Value(Some(word))
}

/// A boolean, which is an int (JVM Specification 2.3.4).
pub fn truth(value: bool) -> Out
    ensures { result ≡ gives_truth value }
{
    if value {
        gives(Word::Int(1))
    } else {
        gives(Word::Int(0))
    }
}
