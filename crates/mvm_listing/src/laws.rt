ghost use Rattle.mvm_listing.specs.Laws.{PartsAgain, ClassAgain, MnemonicLaw, UsualLaw};

/// The text of a class file is assembled to it again, for every class file.
pub fn class_law()
    ensures parts { PartsAgain }
    ensures class { ClassAgain }
{}

/// What an instruction's bytes are read as is written by its mnemonic, where they are spelled as usual: the padding of a switch and the last
/// byte of an `invokeinterface` are zero.
pub fn mnemonic_law()
    ensures { MnemonicLaw }
{}

/// The line of what an instruction's bytes are read as is assembled to them exactly where they are spelled as usual.
pub fn usual_law()
    ensures { UsualLaw }
{}
