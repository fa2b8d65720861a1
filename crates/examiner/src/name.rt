// Name.
ghost use Rattle.std.specs.Prelude.{◌≡◌, List, ℕ, ◌≤◌, ◌+◌, length, Ok, Some};
ghost use Rattle.ast.specs.Tree.{Contract};
ghost use Rattle.text.specs.declared.Place.{Place as NamePlace};
ghost use Rattle.rows.specs.Rows.{line_in};
ghost use Rattle.rows.specs.Work.{work_words, cleared};
ghost use Rattle.reader.specs.Ceilings.{max_bytes};
ghost use Rattle.reader.specs.Spells.{SpellsContract};
ghost use Rattle.rules.specs.Result.{answer};
ghost use Rattle.rules.specs.Analyze.{analyze as analyze_of};
ghost use Rattle.names.specs.declared.Item.{Item};
ghost use Rattle.declarations.specs.Items.{ContractAt, DeclaredAs};
ghost use Rattle.declarations.specs.Noted.{declared_in, Declares, item_at};
ghost use Rattle.examiner.specs.Examined.{Given};
ghost use Rattle.examiner.specs.Lent.{work_after};
ghost use Rattle.examiner.specs.Name.{named_by, named, name_bytes};

use crate::{analyze_rows, examine};
use ast::CompileError;
use declarations::{Declared, item_in};
use rows::Rows;
use text::Place;

// The place of an item's name in the contract of n rows, which is analyzed.
fn place_in_rows(
    rows: &Rows<'_>,
    n: usize,
    d: Declared,
    path: u32,
    position: u32,
) -> Result<Option<Place>, CompileError>
    requires { Given rows.now n d }
    ensures { (c : Contract) (ps : List (List Item)) → SpellsContract (line_in rows.now.table.now) rows.now.listing.now c n → Declares rows.now.table.now ps → result ≡ named_by (answer (analyze_of c)) (item_at ps path position) }
{
    analyze_rows(rows, n, d)?;
    Ok(item_in(rows.table, d, path, position).map(|x| x.name))
}

// Where the part of the listing that holds an item's name stands, if there is such an item; Check's refusal if it refuses.
pub fn name_place(
    listing: &[u8],
    work: &mut [u32],
    path: u32,
    position: u32,
) -> Result<Option<Place>, CompileError>
    ensures value { result ≡ named listing.now (length work.old) path position }
    ensures inside { (x : NamePlace) → result ≡ Ok (Some x) → (x.at + x.len ≤ length listing.now) × (x.at + x.len ≤ max_bytes) }
    ensures work_after { work.new ≡ work_after work.old }
{
    examine(
        listing,
        work,
        &mut |rows, n, d| { place_in_rows(rows, n, d, path, position) },
    )?
}

// Name: the part of the listing that holds an item's name, its position counted from the top of its path's stack; an empty part
// if Check refuses or there is no such item.
pub fn name<'a>(listing: &'a [u8], work: &mut [u32], path: u32, position: u32) -> &'a [u8]
    ensures result_value { result.now ≡ name_bytes listing.now (length work.old) path position }
    ensures work_after { work.new ≡ work_after work.old }
{
    let place = name_place(listing, work, path, position).ok().flatten();
    match place {
        Some(x) => x.of(listing),
        None => &listing[..0],
    }
}
