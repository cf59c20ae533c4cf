//! The versions of rows that are loaded.
ghost use Rattle.std.specs.Prelude.{◌≤◌, IfOk};
ghost use Rattle.mvo_types.specs.RowLists.{rows_by_key};
ghost use Rattle.mvo_types.specs.declared.limits.TheConstants.{MAX_STAMP as LIMIT};
ghost use Rattle.mvo_word.specs.declared.held.Held.TheVariants.{At};
ghost use Rattle.mvo_versions.specs.Loading.{AreListed};

use crate::runs::fits;
use mvo_chain::Chains;
use mvo_range::SortPlace;
use mvo_types::{Rows, Stamp};
use mvo_word::Word;
use std::alloc::{AllocError, Global};

/// The versions of these rows, put at the mark, and the entries of their places.
pub fn chains_of(
    alloc: Global,
    rows: Rows,
    mark: Stamp,
) -> Result<(Chains, Vec<(SortPlace, u32)>), AllocError>
    requires { mark.0 ≤ LIMIT }
    ensures { IfOk result (λ made.
        AreListed (At mark) (rows_by_key rows) made.0 made.1.items) }
{
    let rows = rows.into_rows(alloc)?;
    let mut chains = Chains::new(alloc);
    let mut places = Vec::with_capacity(alloc, rows.len())?;
    for row in rows {
        let place = SortPlace::new(row.row_key(), row.sort);
        let number = chains.add(row, Word::stamp(mark))?;
        fits(number);
        // No other row has this key, so the version is a run by itself.
        places.push((place, 1))?;
    }
    Ok((chains, places))
}
