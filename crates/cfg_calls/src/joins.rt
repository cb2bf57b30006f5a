//! Values that are there only where nothing was refused, and what is made of several of them.

ghost use Rattle.std.specs.Prelude.{◌≡◌, ◌++◌, ◌∷◌, [], IfOk, option_map};
ghost use Rattle.cfg_tree.specs.Refusals.{join};
ghost use Rattle.cfg_tree.specs.declared.script.Expr.TheViews.{roll-Expr};

use sqlite_items::{Boxed, Items};
use std::alloc::{AllocError as NoMemory, Global};

/// A list with one more item.
pub fn with_item<T: Drop>(
    list: Option<Items<T>>,
    item: Option<T>,
) -> Result<Option<Items<T>>, NoMemory>
    ensures { IfOk result (λ r. r ≡ join (λ xs x. xs ++ x ∷ []) list item) }
{
    match (list, item) {
        (Some(mut list), Some(item)) => {
            list.push(item)?;
            Ok(Some(list))
        }
        _ => Ok(None),
    }
}

/// A list with more items after it.
pub fn with_items<T: Drop>(
    list: Option<Items<T>>,
    more: Option<Items<T>>,
) -> Result<Option<Items<T>>, NoMemory>
    ensures { IfOk result (λ r. r ≡ join (λ xs ys. xs ++ ys) list more) }
{
    match (list, more) {
        (Some(mut list), Some(more)) => {
            list.append(more)?;
            Ok(Some(list))
        }
        _ => Ok(None),
    }
}

/// The list of one item.
pub fn one<T: Drop>(alloc: Global, item: T) -> Result<Items<T>, NoMemory>
    ensures { IfOk result (λ xs. xs ≡ item ∷ []) }
{
    let mut list = Items::new(alloc);
    list.push(item)?;
    Ok(list)
}
