// The tables have their room from the start, so that no later call wants memory.
ghost use Rattle.std.specs.Prelude.{◌≤◌, vec_len, vec_capacity};
ghost use Rattle.ledger.specs.declared.tables.TheConstants.{MOST_JOINTS, MOST_BRACES};

use crate::entries::{Brace, Joint};

// How many joints a book has room for.
pub(crate) const MOST_JOINTS: usize = 16;

// How many braces a book has room for.
pub(crate) const MOST_BRACES: usize = 96;

// How many braces may stand at one joint.
pub(crate) const MOST_BRACES_AT_JOINT: usize = 8;

// No `impl Model`: a clause on two tables would then compare only what they hold, and the book's promise that a want of memory
// leaves it as it was would say less.
#[derive(Drop)]
pub struct Tables {
    pub(crate) joints: Vec<Joint>,
    pub(crate) braces: Vec<Brace>,
    ghost room: { (vec_len joints ≤ MOST_JOINTS) × (MOST_JOINTS ≤ vec_capacity joints) × (vec_len braces ≤ MOST_BRACES) × (MOST_BRACES ≤ vec_capacity braces) },
}
