//! Laws of the layout, as the contracts of functions that do nothing.

ghost use Rattle.packing_laws.specs.Layouts.{Vbp, ReadsItsRow, ReadsItsNumbers, MemoryIsNoPlace};
ghost use Rattle.vbp_reader.specs.Examples.{ExamplesComeOut};

/// A text reads as an instance exactly where its tokens are the row of fields of this instance.
pub fn a_text_reads_as_its_row()
    ensures { ReadsItsRow Vbp }
{}

/// A text reads as an instance exactly where all its tokens are digits and their values are the row of numbers of
/// this instance.
pub fn a_text_reads_as_its_numbers()
    ensures { ReadsItsNumbers }
{}

/// Want of memory is no bad place.
pub fn memory_is_no_place()
    ensures { MemoryIsNoPlace Vbp }
{}

/// What texts read as that are worked by hand, and their first bad places.
pub fn examples_come_out()
    ensures { ExamplesComeOut }
{}
