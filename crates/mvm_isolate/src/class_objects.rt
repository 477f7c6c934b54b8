//! The class objects of classes and of array classes (Java SE 8 API, java.lang.Class).

ghost use Rattle.std.specs.Prelude.{◌≡◌, None, OnErr};
ghost use Rattle.mvm_base.specs.Answers.{Gives};
ghost use Rattle.mvm_isolate.specs.Isolate.{class_object, known_or_new, new_object, with_class_object};
ghost use Rattle.mvm_isolate.specs.Numbered.{name_at, named, shape_at, IsArray, IsClass};
ghost use Rattle.mvm_isolate.specs.Sound.{Grows};
ghost use Rattle.mvm_isolate.specs.Types.{of_array, of_class, CLASS};

use crate::isolate::Isolate;
use crate::stop::Stop;

impl Isolate {
    /// The class object of the class of a number, if it has one.
    pub fn has_class_object(&self, mirror: u32) -> Option<u32>
        requires { IsClass self.now mirror }
        ensures { result ≡ (named self.now).classes.objects (name_at self.now mirror) }
    {
        let _class = self.mirrors.class(mirror);
        self.mirrors.class_object(mirror)
    }

    /// The class object of the array class of a number, if it has one.
    fn has_array_object(&self, row: u32) -> Option<u32>
        requires { IsArray self.now row }
        ensures { result ≡ (named self.now).arrays (shape_at self.now row) }
    {
        let _shape = self.arrays.shape(row);
        self.arrays.class_object(row)
    }

    /// Gives the class of a number a class object.
    fn set_class_object(&mut self, mirror: u32, object: u32)
        requires { IsClass self.old mirror }
        ensures named { named self.new ≡ with_class_object (of_class (name_at self.old mirror)) object (named self.old) }
        ensures links { self.new.env.links ≡ self.old.env.links }
        ensures grows { Grows self.old self.new }
    {
        let _class = self.mirrors.class(mirror);
        self.mirrors.set_class_object(mirror, object);
    }

    /// Gives the array class of a number a class object.
    fn set_array_object(&mut self, row: u32, object: u32)
        requires { IsArray self.old row }
        ensures named { named self.new ≡ with_class_object (of_array (shape_at self.old row)) object (named self.old) }
        ensures links { self.new.env.links ≡ self.old.env.links }
        ensures grows { Grows self.old self.new }
    {
        let _shape = self.arrays.shape(row);
        self.arrays.set_class_object(row, object);
    }

    /// A new object of `java/lang/Class`.
    fn new_class_object(&mut self) -> Result<u32, Stop>
        ensures does { Gives result (new_object CLASS 0 (named self.old)) (named self.new) }
        ensures err { OnErr result (named self.new ≡ named self.old) }
        ensures links { self.new.env.links ≡ self.old.env.links }
        ensures grows { Grows self.old self.new }
    {
        let mirror = self.class_class();
        self.new_object(mirror, 0)
    }

    /// The class object of the class of a number, made where it was never wanted before. It takes no memory of the machine's own.
    ///
    /// # Errors
    ///
    /// It throws `OutOfMemoryError` where words of the heap are missing.
    #[tactic(auto, unfolding(crate::specs::Isolate::class_object), using(crate::proofs::Staying::class_within, crate::proofs::Staying::name_grows, crate::proofs::Keeping::grows_same, crate::proofs::Keeping::grows_then))]
    pub fn class_object(&mut self, mirror: u32) -> Result<u32, Stop>
        requires { IsClass self.old mirror }
        ensures does { Gives result (class_object (of_class (name_at self.old mirror)) (named self.old)) (named self.new) }
        ensures err { OnErr result (named self.new ≡ named self.old) }
        ensures links { self.new.env.links ≡ self.old.env.links }
        ensures grows { Grows self.old self.new }
    {
        match self.has_class_object(mirror) {
            Some(object) => Ok(object),
            None => {
                let object = self.new_class_object()?;
                self.set_class_object(mirror, object);
                Ok(object)
            }
        }
    }

    /// The class object of the array class of a number, made where it was never wanted before. It takes no memory of the machine's own.
    ///
    /// # Errors
    ///
    /// It throws `OutOfMemoryError` where words of the heap are missing.
    #[tactic(auto, unfolding(crate::specs::Isolate::class_object), using(crate::proofs::Staying::array_within, crate::proofs::Staying::shape_grows, crate::proofs::Keeping::grows_same, crate::proofs::Keeping::grows_then))]
    pub fn array_class_object(&mut self, row: u32) -> Result<u32, Stop>
        requires { IsArray self.old row }
        ensures does { Gives result (class_object (of_array (shape_at self.old row)) (named self.old)) (named self.new) }
        ensures err { OnErr result (named self.new ≡ named self.old) }
        ensures links { self.new.env.links ≡ self.old.env.links }
        ensures grows { Grows self.old self.new }
    {
        match self.has_array_object(row) {
            Some(object) => Ok(object),
            None => {
                let object = self.new_class_object()?;
                self.set_array_object(row, object);
                Ok(object)
            }
        }
    }
}
