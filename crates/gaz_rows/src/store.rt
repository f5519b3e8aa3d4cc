//! The five tables over pages, and the questions to them.
ghost use Rattle.std.specs.Prelude.{◌≡◌, ◌≤◌, ◌+◌, ◌*◌, ℕ, List, ◌∷◌, [], length, IsTrue, IfOk, IfErr, IfSome, Some, take, IsSome};
ghost use Rattle.gaz_num.specs.declared.words.Table.TheVariants.{Rows, Alternates, Countries};
ghost use Rattle.gaz_heap.specs.Place.{record_at};
ghost use Rattle.gaz_rows.specs.Store.{Answers, HasAsked, IsSoundOver, IsSound};
ghost use Rattle.gaz_leaf.specs.Node.{Pair, key_of};
ghost use Rattle.gaz_tree.specs.Pairs.{lookup};
ghost use Rattle.gaz_tree.specs.Tree.{IsTop};
ghost use Rattle.gaz_scan.specs.Ranges.{between};
ghost use Rattle.gaz_scan.specs.Scan.{Comes, tree_of};
ghost use Rattle.gaz_rows.specs.Found.{Finds, FindsCoded, FailsSoundly, OverRecord, OverTree, GivesNext, OverPlace, IsLineOf, has_code as is_coded};
ghost use Rattle.gaz_rows.specs.Stepping.{IsFoundAt};

use crate::fault::AskFault;
use gaz_heap::get as get_record;
use gaz_keys::{alternate_key, country_key_of, place_key};
use gaz_num::field;
use gaz_page::{Pages, Root};
use gaz_scan::Scan;
use gaz_tree::Tree;

/// The five tables over pages. It stands for a gazetteer where its pages and its root do.
#[derive(Drop)]
pub struct RowStore<P> {
    pub(crate) pages: P,
    pub(crate) root: Root,
}

/// Whether the first column of a line is the code.
pub(crate) fn has_code(line: &[u8], code: &[u8]) -> bool
    ensures { result ≡ is_coded code.now line.now }
{
    field(line, 0).unwrap_or(&[]) == code
}

impl<P: Pages> RowStore<P> {
    /// The store of a root over its pages.
    pub fn over(pages: P, root: Root) -> RowStore<P>
        ensures pages { result.pages ≡ pages }
        ensures root { result.root ≡ root }
    {
        RowStore { pages, root }
    }

    /// The root, with the least page never taken and the first free one as they were when the store began: who writes it puts the
    /// pages' own in their place.
    pub fn root(&self) -> &Root
        ensures { result.now ≡ self.now.root }
    {
        &self.root
    }

    /// The pages.
    pub fn into_pages(self) -> P
        ensures { result ≡ self.pages }
    {
        self.pages
    }

    /// The tree of the keys.
    pub(crate) fn tree(&self) -> Tree
        ensures top { result.top ≡ self.now.root.top }
        ensures height { result.height ≡ self.now.root.height }
    {
        Tree {
            top: self.root.top,
            height: self.root.height,
        }
    }

    /// The record at a place, in the front of the buffer.
    pub(crate) fn record(&mut self, place: u64, buf: &mut [u8]) -> Result<usize, AskFault>
        requires room { 65535 ≤ length buf.old }
        ensures record { IfOk result (λ size. IsTrue (P.view self.old.pages).is_told → IsSome (record_at (P.view self.old.pages).page place)
            → record_at (P.view self.old.pages).page place ≡ Some (take size buf.new)) }
        ensures fits { IfOk result (λ size. size ≤ 65535) }
        ensures damaged { IfErr result (λ fault. IsTrue (P.view self.old.pages).is_told → IsSome (record_at (P.view self.old.pages).page place) → IsSound fault) }
        ensures size { length buf.new ≡ length buf.old }
        ensures asked { HasAsked 17 (P.view self.old.pages) (P.view self.new.pages) result }
        ensures root { self.new.root ≡ self.old.root }
        ensures keeps { P.keeps self.old.pages self.new.pages }
    {
        match get_record(&mut self.pages, place, buf) {
            Ok(size) => Ok(size),
            Err(fault) => Err(AskFault::from(fault)),
        }
    }

    /// The place of a key, or `None` where the tree hasn't the key.
    pub(crate) fn place(&mut self, key: &[u8; 32]) -> Result<Option<u64>, AskFault>
        ensures found { IfOk result (λ found. OverTree (P.view self.old.pages) self.old.root (λ pairs. lookup (key_of key.now) pairs ≡ found)) }
        ensures damaged { IfErr result (λ fault. OverTree (P.view self.old.pages) self.old.root (λ pairs. IsSound fault)) }
        ensures asked { HasAsked self.old.root.height (P.view self.old.pages) (P.view self.new.pages) result }
        ensures root { self.new.root ≡ self.old.root }
        ensures keeps { P.keeps self.old.pages self.new.pages }
    {
        let tree = self.tree();
        match tree.get(&mut self.pages, key) {
            Ok(found) => Ok(found),
            Err(fault) => Err(AskFault::from(fault)),
        }
    }

    /// The place of a key, and the record there in the front of the buffer with its size; or none where the tree hasn't the key.
    pub(crate) fn find(
        &mut self,
        key: &[u8; 32],
        buf: &mut [u8],
    ) -> Result<Option<(u64, usize)>, AskFault>
        requires room { 65535 ≤ length buf.old }
        ensures found { IfOk result (λ found. OverRecord key.now (P.view self.old.pages) self.old.root (λ pairs. IsFoundAt key.now (P.view self.old.pages) pairs buf.new found)) }
        ensures fits { IfOk result (λ found. IfSome found (λ at. at.1 ≤ 65535)) }
        ensures damaged { IfErr result (FailsSoundly key.now (P.view self.old.pages) self.old.root) }
        ensures size { length buf.new ≡ length buf.old }
        ensures asked { HasAsked (self.old.root.height + 17) (P.view self.old.pages) (P.view self.new.pages) result }
        ensures root { self.new.root ≡ self.old.root }
        ensures keeps { P.keeps self.old.pages self.new.pages }
    {
        let place = match self.place(key) {
            Ok(Some(place)) => place,
            Ok(None) => return Ok(None),
            Err(fault) => return Err(fault),
        };
        match self.record(place, buf) {
            Ok(size) => Ok(Some((place, size))),
            Err(fault) => Err(fault),
        }
    }

    /// The line at the place of a key, in the front of the buffer.
    pub(crate) fn get(&mut self, key: &[u8; 32], buf: &mut [u8]) -> Result<Option<usize>, AskFault>
        requires room { 65535 ≤ length buf.old }
        ensures line { IfOk result (Finds key.now (P.view self.old.pages) self.old.root buf.new) }
        ensures fits { IfOk result (λ found. IfSome found (λ size. size ≤ 65535)) }
        ensures damaged { IfErr result (FailsSoundly key.now (P.view self.old.pages) self.old.root) }
        ensures size { length buf.new ≡ length buf.old }
        ensures asked { HasAsked (self.old.root.height + 17) (P.view self.old.pages) (P.view self.new.pages) result }
        ensures root { self.new.root ≡ self.old.root }
        ensures keeps { P.keeps self.old.pages self.new.pages }
    {
        match self.find(key, buf) {
            Ok(Some((_, size))) => Ok(Some(size)),
            Ok(None) => Ok(None),
            Err(fault) => Err(fault),
        }
    }

    /// The row with an id, in the front of the buffer, or `None` where there is none. Over a tree in form, of which the height is at
    /// most 6, it reads no more than 23 pages.
    pub fn get_row(&mut self, id: u32, buf: &mut [u8]) -> Result<Option<usize>, AskFault>
        requires room { 65535 ≤ length buf.old }
        ensures line { IfOk result (Answers Rows (id ∷ []) (P.view self.old.pages) self.old.root buf.new) }
        ensures fits { IfOk result (λ found. IfSome found (λ size. size ≤ 65535)) }
        ensures damaged { IfErr result (IsSoundOver (P.view self.old.pages) self.old.root) }
        ensures size { length buf.new ≡ length buf.old }
        ensures asked { HasAsked (self.old.root.height + 17) (P.view self.old.pages) (P.view self.new.pages) result }
        ensures root { self.new.root ≡ self.old.root }
        ensures keeps { P.keeps self.old.pages self.new.pages }
    {
        self.get(&place_key(id), buf)
    }

    /// The alternate name with an id, as `get_row`.
    pub fn get_alt(&mut self, id: u32, buf: &mut [u8]) -> Result<Option<usize>, AskFault>
        requires room { 65535 ≤ length buf.old }
        ensures line { IfOk result (Answers Alternates (id ∷ []) (P.view self.old.pages) self.old.root buf.new) }
        ensures fits { IfOk result (λ found. IfSome found (λ size. size ≤ 65535)) }
        ensures damaged { IfErr result (IsSoundOver (P.view self.old.pages) self.old.root) }
        ensures size { length buf.new ≡ length buf.old }
        ensures asked { HasAsked (self.old.root.height + 17) (P.view self.old.pages) (P.view self.new.pages) result }
        ensures root { self.new.root ≡ self.old.root }
        ensures keeps { P.keeps self.old.pages self.new.pages }
    {
        self.get(&alternate_key(id), buf)
    }

    /// The line at the place of a key, if the first column of it is the code.
    fn get_coded(
        &mut self,
        key: &[u8; 32],
        code: &[u8],
        buf: &mut [u8],
    ) -> Result<Option<usize>, AskFault>
        requires room { 65535 ≤ length buf.old }
        ensures line { IfOk result (FindsCoded key.now code.now (P.view self.old.pages) self.old.root buf.new) }
        ensures fits { IfOk result (λ found. IfSome found (λ size. size ≤ 65535)) }
        ensures damaged { IfErr result (FailsSoundly key.now (P.view self.old.pages) self.old.root) }
        ensures size { length buf.new ≡ length buf.old }
        ensures asked { HasAsked (self.old.root.height + 17) (P.view self.old.pages) (P.view self.new.pages) result }
        ensures root { self.new.root ≡ self.old.root }
        ensures keeps { P.keeps self.old.pages self.new.pages }
    {
        match self.get(key, buf) {
            Ok(Some(size)) if !has_code(&buf[..size], code) => Ok(None),
            found => found,
        }
    }

    /// The line of a country, by its code, which may be any bytes. Codes with zeros behind them may have the key of a shorter one, so
    /// the line's own code is compared.
    pub fn get_country(&mut self, code: &[u8], buf: &mut [u8]) -> Result<Option<usize>, AskFault>
        requires room { 65535 ≤ length buf.old }
        ensures line { IfOk result (Answers Countries code.now (P.view self.old.pages) self.old.root buf.new) }
        ensures fits { IfOk result (λ found. IfSome found (λ size. size ≤ 65535)) }
        ensures damaged { IfErr result (IsSoundOver (P.view self.old.pages) self.old.root) }
        ensures size { length buf.new ≡ length buf.old }
        ensures asked { HasAsked (self.old.root.height + 17) (P.view self.old.pages) (P.view self.new.pages) result }
        ensures root { self.new.root ≡ self.old.root }
        ensures keeps { P.keeps self.old.pages self.new.pages }
    {
        self.get_coded(&country_key_of(code), code, buf)
    }

    /// The pairs of a closed range of keys, for `next`.
    pub fn scan(&self, low: [u8; 32], high: [u8; 32]) -> Scan
        ensures comes { (pages : ℕ → List ℕ) (pairs : List Pair) → IsTop pages self.now.root.height self.now.root.top pairs
            → Comes pages result (between (key_of low) (key_of high) pairs) }
        ensures top { (tree_of result).top ≡ self.now.root.top }
        ensures height { (tree_of result).height ≡ self.now.root.height }
    {
        Scan::over(self.tree(), low, high)
    }

    /// The next key of a scan with its value, or `None` behind the last. The pages have to be as they were when the scan began.
    pub fn next(&mut self, scan: &mut Scan) -> Result<Option<([u8; 32], u64)>, AskFault>
        ensures gives { IsTrue (P.view self.old.pages).is_told → (left : List Pair) → Comes (P.view self.old.pages).page scan.old left
            → GivesNext (P.view self.old.pages).page (P.view self.new.pages).page scan.new left result }
        ensures tree { tree_of scan.new ≡ tree_of scan.old }
        ensures asked { HasAsked (2 * (tree_of scan.old).height) (P.view self.old.pages) (P.view self.new.pages) result }
        ensures root { self.new.root ≡ self.old.root }
        ensures keeps { P.keeps self.old.pages self.new.pages }
    {
        match scan.next(&mut self.pages) {
            Ok(found) => Ok(found),
            Err(fault) => Err(AskFault::from(fault)),
        }
    }

    /// The line at a place that is the value of a key, in the front of the buffer.
    pub fn line_at(&mut self, place: u64, buf: &mut [u8]) -> Result<usize, AskFault>
        requires room { 65535 ≤ length buf.old }
        ensures line { IfOk result (λ size. OverPlace (P.view self.old.pages) self.old.root place (λ gaz key. IsLineOf gaz key (take size buf.new))) }
        ensures damaged { IfErr result (λ fault. OverPlace (P.view self.old.pages) self.old.root place (λ gaz key. IsSound fault)) }
        ensures fits { IfOk result (λ size. size ≤ 65535) }
        ensures size { length buf.new ≡ length buf.old }
        ensures asked { HasAsked 17 (P.view self.old.pages) (P.view self.new.pages) result }
        ensures root { self.new.root ≡ self.old.root }
        ensures keeps { P.keeps self.old.pages self.new.pages }
    {
        self.record(place, buf)
    }
}
