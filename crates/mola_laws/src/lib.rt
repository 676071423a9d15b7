// What C and Rust can rely on: how the structs lie that they share with the exported functions, the refusal that they cannot get, a block's numbers, and what a
// block of no frame is refused with. The structs are of several crates
// below; a program or an export needs none of this, so that it is a crate above `mola`.
#![tactic(auto)]

ghost use Rattle.mola_laws.specs.BlockFrame.{BlockKept, UnknownFrameRefused};
ghost use Rattle.mola_laws.specs.ClassRefusal.{NoClassRefused};
ghost use Rattle.mola_laws.specs.Layout.{StructLayouts};
ghost use Rattle.mola_laws.specs.RecordLayout.{RecordLayouts};

// Where the fields of each struct of packets and of the reorder buffer's answers lie.
pub fn struct_layouts()
    ensures { StructLayouts }
{}

// Where the fields of each struct of PEDR records lie.
pub fn record_layouts()
    ensures { RecordLayouts }
{}

// 40 does not come from C: a class is its number there, and the class of any number can be written.
pub fn classes_not_refused()
    ensures { NoClassRefused }
{}

// The numbers of a block say its frame, and stand for that block.
pub fn block_kept()
    ensures { BlockKept }
{}

// What a block is refused with whose frame number is none of 1 to 7.
pub fn unknown_frame_refused()
    ensures { UnknownFrameRefused }
{}
