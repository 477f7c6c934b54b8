ghost use Rattle.std.specs.Prelude.{◌≡◌, All, IsTrue};
ghost use Rattle.mvm_classfile.specs.Kept.{IsLinked, HasClasses, IsClassField, IsClassMethod, AreApart, NumbersFit};
ghost use Rattle.mvm_classfile.specs.Reading.{IsClassFile};
ghost use Rattle.mvm_classfile.specs.Writing.{is_countable};

use mvm_layout::Parts;
use std::marker::Model;

/// A class file that keeps the rules of its format (JVM Specification, chapter 4): parts that some bytes, fewer than 2^32,
/// read as.
#[derive(Debug, Drop)]
pub struct ClassFile {
    parts: Parts,
}

impl Model for ClassFile {
    ghost use Rattle.mvm_layout.specs.declared.parts.Parts.{Parts as PartsOf};
    ghost use Rattle.mvm_classfile.specs.Reading.{IsClassFile};

    ghost Value = { PartsOf };

    ghost view = { λ c. c.parts };

    ghost invariant = { λ c. IsClassFile c.parts };
}

impl ClassFile {
    /// The class file of parts that some bytes read as.
    pub(crate) fn new(parts: Parts) -> ClassFile
        requires { IsClassFile parts }
        ensures { result ≡ parts }
    {
        ClassFile { parts }
    }

    /// What the class file says, but for the attributes that are passed over.
    pub fn parts(&self) -> &Parts
        ensures value { result.now ≡ self.now }
        // Each list is short enough for its count, and the code of a method has at most 65,535 bytes.
        ensures short { IsTrue (is_countable self.now) }
        // They keep the rules of their format.
        ensures keeps { IsClassFile self.now }
        // Each index in the constant pool names an entry of the kind that it should.
        ensures linked { IsLinked self.now.pool }
        // The class, its superclass and its superinterfaces are classes.
        ensures classes { HasClasses self.now }
        // Each field has a name, a field's descriptor, and the constant that its descriptor wants if it has one.
        ensures fields { All (IsClassField self.now.pool) self.now.fields }
        // No two of them have equal name and descriptor.
        ensures fields_apart { AreApart self.now.pool self.now.fields }
        // Each method has a name, a method's descriptor of at most 255 slots, and code unless it is native or abstract.
        ensures methods { All (IsClassMethod self.now.pool) self.now.methods }
        // No two of them have equal name and descriptor.
        ensures methods_apart { AreApart self.now.pool self.now.methods }
        // Each number fits its field, and the names of the attributes that it is written with are there.
        ensures numbers { NumbersFit self.now }
    {
        &self.parts
    }
}
