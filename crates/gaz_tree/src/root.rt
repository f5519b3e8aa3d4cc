//! A topmost page over two others.
ghost use Rattle.std.specs.Prelude.{◌≡◌, ◌≤◌, ◌<◌, ◌+◌, ◌^◌, ℕ, false, List, length, IsTrue, IfOk, IfErr, OnOk};
ghost use Rattle.gaz_page.specs.Pages.{HasPageCause, Counts};
ghost use Rattle.gaz_page.specs.Chains.{TakesAlong};
ghost use Rattle.gaz_tree.specs.Put.{IsTakeDamage};
ghost use Rattle.gaz_tree.specs.Stands.{IsRooted};

use crate::grown::Half;
use gaz_leaf::{Kind, clear, insert};
use gaz_page::{PageFault, Pages};

/// Takes a page for a topmost one, whose children are the page that was topmost and the one that was split off from it.
pub fn grow<P: Pages>(pages: &mut P, top: u32, half: Half) -> Result<u32, PageFault>
    requires may_change { (P.view pages.old).is_read_only ≡ false }
    ensures rooted { IfOk result (λ number. IsTrue (P.view pages.old).is_told → IsRooted (P.view pages.old) (P.view pages.new) top half number) }
    ensures along { OnOk result (IsTrue (P.view pages.old).is_told → TakesAlong 1 (P.view pages.old) (P.view pages.new)) }
    ensures damaged { IsTrue (P.view pages.old).is_told → IsTakeDamage (P.view pages.old) result }
    ensures counts { Counts 1 2 (P.view pages.old) (P.view pages.new) }
    ensures cause { HasPageCause (P.view pages.old) (P.view pages.new) result }
    ensures keeps { P.keeps pages.old pages.new }
{
    let number = match pages.take() {
        Ok(number) => number,
        Err(fault) => return Err(fault),
    };
    let mut buf = [0; 4096];
    clear(&mut buf, Kind::Inner, number);
    insert(&mut buf, Kind::Inner, 0, &[0; 32], top as u64);
    insert(&mut buf, Kind::Inner, 1, &half.key, half.page as u64);
    match pages.write(number, &buf) {
        Ok(()) => Ok(number),
        Err(fault) => Err(fault),
    }
}
