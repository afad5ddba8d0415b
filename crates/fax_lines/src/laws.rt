//! Reading and writing key lines are each other's inverse.
ghost use Rattle.std.specs.Prelude.{◌≡◌, ℕ, List};
ghost use Rattle.fax_job.specs.Pair.{Pair, ArePairs};
ghost use Rattle.fax_job.specs.Spelling.{printed};
ghost use Rattle.fax_lines.specs.Spells.{Spells};

/// What is written of a list spells that list, and reading what a text spells gives it: so
/// [`read_lines`](crate::read_lines) of what [`write_lines`](fax_job::write_lines) gave is the same list, unless memory runs
/// out.
pub fn written_is_read()
    ensures spells { (ps : List Pair) → ArePairs ps → Spells (printed ps) ps }
    ensures alone { (text : List ℕ) (ps qs : List Pair) → Spells text ps → Spells text qs → ps ≡ qs }
{}
