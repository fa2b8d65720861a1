// Items that no line took, path by path.
ghost use Rattle.std.specs.Prelude.{◌≡◌, List, ℕ};
ghost use Rattle.rules.specs.Unused.{unused_all};
ghost use Rattle.tables.specs.State.{tables_of, Ready};

use ast::CompileError;
use declarations::Declared;
use paths::{Path, check_unused_variable};

// The first item, path by path, that no line took.
pub fn check_unused(table: &[u32], d: Declared, paths: &[Path; 32]) -> Result<(), CompileError>
    requires { (s : List ℕ) × Ready s table.now d paths.now }
    ensures { (s : List ℕ) → Ready s table.now d paths.now → result ≡ unused_all (tables_of s table.now d paths.now) }
{
    for path in &paths[..d.count as usize] {
        check_unused_variable(table, *path)?;
    }
    Ok(())
}
