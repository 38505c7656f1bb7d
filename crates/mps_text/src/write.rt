//! Writing a program as MPS text.

ghost use Rattle.std.specs.Prelude.{◌≡◌, ℕ, ◌<◌, [], ◌∷◌, ◌++◌, length, map, flat_map, codes, decimal, OnOk, IfOk};
ghost use Rattle.arc_num.specs.Decimals.{signed_decimal};
ghost use Rattle.flow_model.specs.Programs.{IsColumn, IsProgram, marker_word};
ghost use Rattle.mps_text.specs.Written.{joined, spaced, kind_letter, row_line, cost_line, entry_line, column_lines, right_lines, bound_line, bound_lines, first_mark, last_mark, rows_section, columns_section, rights_section, bounds_section, mps_text_of};

use arc_num::{Memory, push_bytes, push_number, push_signed};
use flow_model::{Column, Program, Row, RowKind};
use std::alloc::Global;

/// The text of a program. It is made whole, so want of memory leaves nothing half written; its memory is that of the text,
/// about 60 bytes for each arc of a model.
pub fn write_mps(alloc: Global, program: &Program) -> Result<Vec<u8>, Memory>
    requires { IsProgram program.now }
    ensures { IfOk result (λ text. text.items ≡ mps_text_of program.now) }
{
    let mut out = Vec::new(alloc);
    push_bytes(&mut out, b"NAME vpack\n")?;
    push_rows(&mut out, program)?;
    push_columns(&mut out, program)?;
    push_rights(&mut out, program)?;
    push_bounds(&mut out, program)?;
    push_bytes(&mut out, b"ENDATA\n")?;
    Ok(out)
}

fn push_field(out: &mut Vec<u8>, field: &[u8]) -> Result<(), Memory>
    ensures { OnOk result (out.new.items ≡ out.old.items ++ 32 ∷ field.now) }
{
    push_bytes(out, b" ")?;
    push_bytes(out, field)
}

fn push_two(out: &mut Vec<u8>, first: &[u8], second: &[u8]) -> Result<(), Memory>
    ensures { OnOk result (out.new.items ≡ out.old.items ++ joined (spaced (first.now ∷ second.now ∷ []) ∷ [])) }
{
    push_field(out, first)?;
    push_field(out, second)?;
    push_bytes(out, b"\n")
}

fn push_value(out: &mut Vec<u8>, first: &[u8], second: &[u8], value: i64) -> Result<(), Memory>
    ensures { OnOk result (out.new.items ≡ out.old.items ++ joined (spaced (first.now ∷ second.now ∷ signed_decimal value ∷ []) ∷ [])) }
{
    push_field(out, first)?;
    push_field(out, second)?;
    push_bytes(out, b" ")?;
    push_signed(out, value)?;
    push_bytes(out, b"\n")
}

fn letter(kind: RowKind) -> &'static [u8]
    ensures { result.now ≡ kind_letter kind }
{
    match kind {
        RowKind::Equal => b"E",
        RowKind::Least => b"G",
        RowKind::Most => b"L",
    }
}

fn push_rows(out: &mut Vec<u8>, program: &Program) -> Result<(), Memory>
    ensures { OnOk result (out.new.items ≡ out.old.items ++ joined (rows_section program.now)) }
{
    push_bytes(out, b"ROWS\n")?;
    push_two(out, b"N", program.objective.as_slice())?;
    push_row_lines(out, program.rows.as_slice())
}

fn push_row_lines(out: &mut Vec<u8>, rows: &[Row]) -> Result<(), Memory>
    ensures { OnOk result (out.new.items ≡ out.old.items ++ joined (map row_line rows.now)) }
{
    for row in rows {
        push_two(out, letter(row.kind), row.name.as_slice())?;
    }
    Ok(())
}

fn push_columns(out: &mut Vec<u8>, program: &Program) -> Result<(), Memory>
    requires { IsProgram program.now }
    ensures { OnOk result (out.new.items ≡ out.old.items ++ joined (columns_section program.now)) }
{
    push_bytes(out, b"COLUMNS\n MARK1 'MARKER' 'INTORG'\n")?;
    push_column_lines(out, program)?;
    push_bytes(out, b" MARK2 'MARKER' 'INTEND'\n")?;
    Ok(())
}

fn push_column_lines(out: &mut Vec<u8>, program: &Program) -> Result<(), Memory>
    requires { IsProgram program.now }
    ensures { OnOk result (out.new.items ≡ out.old.items ++ joined (flat_map (column_lines program.now) program.now.columns)) }
{
    for column in program.columns.as_slice() {
        push_column(out, program, column)?;
    }
    Ok(())
}

fn push_column(out: &mut Vec<u8>, program: &Program, column: &Column) -> Result<(), Memory>
    requires { IsColumn (length program.now.rows) column.now }
    ensures { OnOk result (out.new.items ≡ out.old.items ++ joined (column_lines program.now column.now)) }
{
    if column.cost != 0 || column.entries.as_slice().is_empty() {
        push_value(
            out,
            column.name.as_slice(),
            program.objective.as_slice(),
            column.cost,
        )?;
    }
    push_entries(out, program.rows.as_slice(), column)
}

fn push_entries(out: &mut Vec<u8>, rows: &[Row], column: &Column) -> Result<(), Memory>
    requires { IsColumn (length rows.now) column.now }
    ensures { OnOk result (out.new.items ≡ out.old.items ++ joined (map (entry_line rows.now column.now) column.now.entries)) }
{
    for entry in column.entries.as_slice() {
        let row = &rows[(entry.row - 1) as usize];
        push_value(
            out,
            column.name.as_slice(),
            row.name.as_slice(),
            entry.value,
        )?;
    }
    Ok(())
}

fn push_rights(out: &mut Vec<u8>, program: &Program) -> Result<(), Memory>
    ensures { OnOk result (out.new.items ≡ out.old.items ++ joined (rights_section program.now)) }
{
    push_bytes(out, b"RHS\n")?;
    push_right_lines(out, program.rows.as_slice())
}

fn push_right_lines(out: &mut Vec<u8>, rows: &[Row]) -> Result<(), Memory>
    ensures { OnOk result (out.new.items ≡ out.old.items ++ joined (flat_map right_lines rows.now)) }
{
    for row in rows {
        push_right(out, row)?;
    }
    Ok(())
}

fn push_right(out: &mut Vec<u8>, row: &Row) -> Result<(), Memory>
    ensures { OnOk result (out.new.items ≡ out.old.items ++ joined (right_lines row.now)) }
{
    if row.right == 0 {
        return Ok(());
    }
    push_value(out, b"RHS", row.name.as_slice(), row.right)
}

fn push_bounds(out: &mut Vec<u8>, program: &Program) -> Result<(), Memory>
    ensures { OnOk result (out.new.items ≡ out.old.items ++ joined (bounds_section program.now)) }
{
    push_bytes(out, b"BOUNDS\n")?;
    push_bound_lines(out, program.columns.as_slice())
}

fn push_bound_lines(out: &mut Vec<u8>, columns: &[Column]) -> Result<(), Memory>
    ensures { OnOk result (out.new.items ≡ out.old.items ++ joined (flat_map bound_lines columns.now)) }
{
    for column in columns {
        push_column_bounds(out, column)?;
    }
    Ok(())
}

fn push_column_bounds(out: &mut Vec<u8>, column: &Column) -> Result<(), Memory>
    ensures { OnOk result (out.new.items ≡ out.old.items ++ joined (bound_lines column.now)) }
{
    if column.lower == column.upper {
        return push_bound(out, b"FX", column, column.upper);
    }
    if column.lower != 0 {
        push_bound(out, b"LO", column, column.lower)?;
    }
    push_bound(out, b"UP", column, column.upper)
}

fn push_bound(out: &mut Vec<u8>, kind: &[u8], column: &Column, value: u64) -> Result<(), Memory>
    ensures { OnOk result (out.new.items ≡ out.old.items ++ joined (bound_line kind.now column.now value ∷ [])) }
{
    push_field(out, kind)?;
    push_field(out, b"BND")?;
    push_field(out, column.name.as_slice())?;
    push_bytes(out, b" ")?;
    push_number(out, u128::from(value))?;
    push_bytes(out, b"\n")
}
