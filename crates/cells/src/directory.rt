// The directory: which cells there are, in rising order.
ghost use Rattle.std.specs.Prelude.{◌≡◌, ◌<◌, ◌≤◌, MatchOption, slice_index_or};
ghost use Rattle.cells.specs.Directory.{place, roles, role_of, kinds};
ghost use Rattle.cells.specs.declared.roles.Kind.TheVariants.{Number};

use crate::roles::{Kind, Role};

// How many cells there are.
pub const CELL_COUNT: usize = 39;

// Cells 0 and 1, 10 to 16, 90 and 91, and 100 to 127.
// No plainer: a static's value is a literal, so 28 equal rows are written out.
static ROLES: [Role; CELL_COUNT] = [
    Role::Model,
    Role::Identification,
    Role::LowI,
    Role::HighI,
    Role::LowV,
    Role::HighV,
    Role::RateI,
    Role::RateV,
    Role::Password,
    Role::InterlockEnable,
    Role::InterlockActivation,
    Role::Operator,
    Role::Operator,
    Role::Operator,
    Role::Operator,
    Role::Operator,
    Role::Operator,
    Role::Operator,
    Role::Operator,
    Role::Operator,
    Role::Operator,
    Role::Operator,
    Role::Operator,
    Role::Operator,
    Role::Operator,
    Role::Operator,
    Role::Operator,
    Role::Operator,
    Role::Operator,
    Role::Operator,
    Role::Operator,
    Role::Operator,
    Role::Operator,
    Role::Operator,
    Role::Operator,
    Role::Operator,
    Role::Operator,
    Role::Operator,
    Role::Operator,
];

// The roles of the cells, in rising order.
#[tactic(auto, unfolding(crate::specs::Directory::roles))]
pub fn all_roles() -> &'static [Role]
    ensures value { result.now ≡ roles }
{
    &ROLES
}

// Where a cell stands in the directory, counted from 0; none where there is no such cell.
pub fn place_of(cell: u32) -> Option<usize>
    ensures cases { MatchOption result (place cell ≡ 39) (λ p. (p ≡ place cell) × (p < 39)) }
{
    match cell {
        0..=1 => Some(cell as usize),
        10..=16 => Some(cell as usize - 8),
        90..=91 => Some(cell as usize - 81),
        100..=127 => Some(cell as usize - 89),
        _ => None,
    }
}

// What a cell is for; none where there is no such cell.
#[tactic(auto, using(crate::proofs::Listed::listed_length, crate::proofs::Listed::listed_role, crate::proofs::Listed::listed_end))]
pub fn role_of(cell: u32) -> Option<Role>
    ensures value { result ≡ role_of cell }
{
    Some(all_roles()[place_of(cell)?])
}

// The kind of the cell at a place of the directory; none past its end.
#[tactic(auto, using(crate::proofs::Listed::listed_length, crate::proofs::Listed::listed_kind))]
pub fn kind_at(at: usize) -> Option<Kind>
    ensures cases { MatchOption result (39 ≤ at) (λ k. (at < 39) × (k ≡ slice_index_or kinds at Number)) }
{
    all_roles().get(at).map(|role| role.kind())
}
