//! Laws of the layout, as the contracts of functions that do nothing.

ghost use Rattle.packing_laws.specs.Layouts.{Mvp, ReadsItsRow, MemoryIsNoPlace};
ghost use Rattle.mvp_reader.specs.Examples.{ExamplesComeOut};

/// A text reads as an instance exactly where each of its tokens is digits with the value of the number in its place of
/// the row of this instance, or is -1 where the place is a limit and there is none.
pub fn a_text_reads_as_its_row()
    ensures { ReadsItsRow Mvp }
{}

/// Want of memory is no bad place.
pub fn memory_is_no_place()
    ensures { MemoryIsNoPlace Mvp }
{}

/// What texts read as that are worked by hand, and their first bad places.
pub fn examples_come_out()
    ensures { ExamplesComeOut }
{}
