//! Where a store begins: the empty gazetteer.
ghost use Rattle.std.specs.Prelude.{◌≡◌, false, IsTrue, IfOk, IfErr};
ghost use Rattle.gaz_plain.specs.Gazetteer.{empty, dated};
ghost use Rattle.gaz_page.specs.Pages.{Counts};
ghost use Rattle.gaz_rows.specs.Store.{HasAskCause, IsStore, IsUndamaged};

use crate::fault::AskFault;
use gaz_num::Day;
use gaz_page::{LineCounts, Pages, Root, Side};
use gaz_tree::Tree;

/// The root of the store of the empty gazetteer with a date, over pages of which none was taken: it takes one for the tree. After an
/// error the pages are to be dropped.
pub fn empty_root<P: Pages>(pages: &mut P, side: Side, day: Day) -> Result<Root, AskFault>
    requires may_change { (P.view pages.old).is_read_only ≡ false }
    requires untaken { IsTrue (P.view pages.old).is_told → ((P.view pages.old).fresh ≡ 1) × ((P.view pages.old).free ≡ 0) }
    ensures store { IfOk result (λ root. IsTrue (P.view pages.old).is_told → IsStore (dated empty day) (P.view pages.new) root) }
    ensures side { IfOk result (λ root. root.side ≡ side) }
    ensures day { IfOk result (λ root. root.day ≡ day) }
    ensures undamaged { IfErr result (λ fault. IsTrue (P.view pages.old).is_told → IsUndamaged fault) }
    ensures counts { Counts 1 2 (P.view pages.old) (P.view pages.new) }
    ensures cause { HasAskCause (P.view pages.old) (P.view pages.new) result }
    ensures keeps { P.keeps pages.old pages.new }
{
    let tree = match Tree::empty(pages) {
        Ok(tree) => tree,
        Err(fault) => return Err(AskFault::from(fault)),
    };
    Ok(Root {
        side,
        height: tree.height,
        top: tree.top,
        fresh: 2,
        free: 0,
        day,
        counts: LineCounts {
            rows: 0,
            alternates: 0,
            links: 0,
            countries: 0,
            codes: 0,
        },
        heap: 0,
    })
}
