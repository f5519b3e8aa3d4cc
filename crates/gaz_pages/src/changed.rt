//! Pages that were changed, and where the next is taken.
ghost use Rattle.std.specs.Prelude.{◌≡◌, ◌==◌, ◌≢◌, ◌↔◌, ◌+◌, ◌<◌, ◌≤◌, ℕ, List, [], Some, None, false, IsTrue, IsSome, IfOk, IfErr, IfSome, OnOk, OnErr, length};
ghost use Rattle.std.specs.Option.{option_copied};
ghost use Rattle.gaz_outside.specs.declared.station.Area.{Area};
ghost use Rattle.gaz_outside.specs.Outside.{HasCause};
ghost use Rattle.gaz_outside.specs.Station.{Confined, Counts, IsStable, AnyIn};
ghost use Rattle.gaz_page.specs.Free.{free_link};
ghost use Rattle.gaz_page.specs.Pages.{IsStarvedBy, IsCounted, IsDamaged, with_page};
ghost use Rattle.gaz_num.specs.Numbers.{some_if};
ghost use Rattle.gaz_redo.specs.declared.home.Home.{Home};
ghost use Rattle.gaz_redo.specs.Content.{are_images};
ghost use Rattle.gaz_redo.specs.Images.{IsPage, image_at, slot_for, with_image};
ghost use Rattle.gaz_redo.specs.Slots.{laid_in, Touches};
ghost use Rattle.gaz_pages.specs.Laid.{AreKept, AreLaid, AreOnlyIn, imaged};

use gaz_outside::{Area, Failed, Station};
use gaz_page::{PAGE, PageFault, write_free};
use gaz_redo::{Home, Images, write_in_place};
use std::alloc::{AllocError, Global};

/// The bytes of a page that is new.
static ZEROS: [u8; PAGE] = [0; PAGE];

/// Pages that were changed and stay in memory: the images of those that were taken, and apart from them those of pages that weren't.
/// It stands beside the pages and is lent to them, so that who lends it knows at the end what became of all that it lent.
#[derive(Drop)]
pub struct Changed {
    pub(crate) images: Images,
    pub(crate) past: Images,
    /// The least page that was never taken.
    pub(crate) fresh: u32,
    /// The first free page, or 0.
    pub(crate) free: u32,
    /// Whether memory was wanting.
    pub(crate) starved: bool,
    pub(crate) ghost kept: { AreKept fresh images past },
}

impl Changed {
    ghost use Rattle.gaz_page.specs.declared.pages.PageFault.TheVariants.{Memory};
    ghost use Rattle.gaz_pages.specs.Views.{all_images, AreChanged, StillChanged};

    /// These images, with the least page that was never taken and the first free one.
    pub fn over(alloc: Global, images: Images, fresh: u32, free: u32) -> Changed
        requires below { (home : Home) → fresh ≤ home.page → image_at home images ≡ None }
        requires in_order { IsTrue (are_images images) }
        ensures images { result.images ≡ images }
        ensures past { result.past ≡ [] }
        ensures fresh { result.fresh ≡ fresh }
        ensures free { result.free ≡ free }
        ensures ample { result.starved ≡ false }
        ensures none { images ≡ [] → (area : Area) (bytes : List ℕ) → AreChanged area fresh result bytes }
    {
        Changed {
            images,
            past: Images::new(alloc),
            fresh,
            free,
            starved: false,
        }
    }

    /// The least page that was never taken, and the first free one.
    pub fn ends(&self) -> (u32, u32)
        ensures fresh { result.0 ≡ self.now.fresh }
        ensures free { result.1 ≡ self.now.free }
    {
        (self.fresh, self.free)
    }

    /// The images of the pages that were taken.
    pub fn images(&self) -> &Images
        ensures { result.now ≡ self.now.images }
    {
        &self.images
    }

    /// The images of the pages that were taken.
    pub fn into_images(self) -> Images
        ensures images { result ≡ self.images }
        ensures below { (home : Home) → self.fresh ≤ home.page → image_at home result ≡ None }
        ensures in_order { IsTrue (are_images result) }
    {
        self.images
    }

    /// Writes the images in their places and syncs the area, without a log: it is for an area that no root names. `Failed` is that of
    /// the first call that failed, and the last made.
    pub fn finish<T: Station>(&self, station: &mut T) -> Result<(), Failed>
        ensures placed { OnOk result (IsTrue (T.view station.old).is_told → (a : Area) → (T.view station.new).bytes a ≡ laid_in a self.now.images ((T.view station.old).bytes a)) }
        ensures stable { OnOk result (IsTrue (T.view station.old).is_told → (a : Area) → Touches a self.now.images → IsStable (T.view station.new) a) }
        // At each moment no other area is changed than the one of all images.
        ensures confined { IsTrue (T.view station.old).is_told → (area : Area) → AreOnlyIn area self.now.images → Confined (AnyIn area) (T.view station.old) (T.view station.new) }
        ensures counts { Counts 0 (length self.now.images) (T.view station.old) (T.view station.new) }
        ensures cause { HasCause (T.view station.old).faults (T.view station.new).faults result }
    {
        write_in_place(station, &self.images)
    }

    /// The image of a page, where it was changed.
    pub(crate) fn get(&self, home: Home) -> Option<&[u8]>
        ensures image { option_copied result ≡ image_at home (all_images self.now) }
        ensures size { IfSome result (λ bytes. length bytes.now ≡ 4096) }
    {
        match self.images.get(home) {
            Some(bytes) => Some(bytes),
            None => self.past.get(home),
        }
    }

    /// Whether the page was changed.
    pub(crate) fn has(&self, home: Home) -> bool
        ensures { IsTrue result ↔ IsSome (image_at home (all_images self.now)) }
    {
        self.get(home).is_some()
    }

    /// The image of a page that was changed.
    pub(crate) fn image(&self, home: Home) -> &[u8]
        requires { IsSome (image_at home (all_images self.now)) }
        ensures page { (file : List ℕ) → result.now ≡ imaged home.area (all_images self.now) file home.page }
        ensures size { length result.now ≡ 4096 }
    {
        self.get(home).unwrap()
    }

    /// Sets an image, by whether the page was taken.
    fn set(&mut self, home: Home, bytes: &[u8]) -> Result<(), AllocError>
        requires page { IsPage home.area home.page }
        requires size { length bytes.now ≡ 4096 }
        ensures taken { home.page < self.old.fresh → OnOk result ((self.new.images ≡ with_image (slot_for home bytes.now) self.old.images) × (self.new.past ≡ self.old.past)) }
        ensures apart { self.old.fresh ≤ home.page → OnOk result ((self.new.images ≡ self.old.images) × (self.new.past ≡ with_image (slot_for home bytes.now) self.old.past)) }
        ensures kept { OnErr result ((self.new.images ≡ self.old.images) × (self.new.past ≡ self.old.past)) }
        ensures fresh { self.new.fresh ≡ self.old.fresh }
        ensures free { self.new.free ≡ self.old.free }
        ensures starved { self.new.starved ≡ self.old.starved }
    {
        if home.page < self.fresh {
            self.images.set(home, bytes)
        } else {
            self.past.set(home, bytes)
        }
    }

    /// Remembers that memory was wanting.
    fn starve(&mut self) -> PageFault
        ensures memory { result ≡ Memory }
        ensures starved { IsTrue self.new.starved }
        ensures images { (self.new.images ≡ self.old.images) × (self.new.past ≡ self.old.past) }
        ensures ends { (self.new.fresh ≡ self.old.fresh) × (self.new.free ≡ self.old.free) }
    {
        self.starved = true;
        PageFault::Memory
    }

    /// Replaces a page.
    pub(crate) fn put(&mut self, home: Home, bytes: &[u8]) -> Result<(), PageFault>
        requires page { IsPage home.area home.page }
        requires size { length bytes.now ≡ 4096 }
        ensures pages { OnOk result ((file : List ℕ) → imaged home.area (all_images self.new) file ≡ with_page home.page bytes.now (imaged home.area (all_images self.old) file)) }
        ensures fresh { self.new.fresh ≡ self.old.fresh }
        ensures free { self.new.free ≡ self.old.free }
        ensures few { length (all_images self.new) ≤ length (all_images self.old) + 1 }
        ensures starved { IsStarvedBy self.old.starved self.new.starved result }
        ensures memory { IfErr result (λ fault. fault ≡ Memory) }
        ensures still { (before : ℕ) (file : List ℕ) → StillChanged home.area before self.old self.new file }
    {
        match self.set(home, bytes) {
            Ok(()) => Ok(()),
            Err(_) => Err(self.starve()),
        }
    }

    /// Takes the least page that was never taken. It has an image at once, so that the images leave no gap.
    pub(crate) fn take_fresh(&mut self, area: Area) -> Result<u32, PageFault>
        requires { IsPage area self.old.fresh }
        ensures page { IfOk result (λ page. (page ≡ self.old.fresh) × (self.new.fresh ≡ page + 1)) }
        ensures others { IfOk result (λ page. (file : List ℕ) (n : ℕ) → n ≢ page → imaged area (all_images self.new) file n ≡ imaged area (all_images self.old) file n) }
        ensures damaged { IsDamaged (some_if (self.old.fresh == 4294967295) 0) result }
        ensures counted { (n : ℕ) → IsCounted n n result }
        ensures free { self.new.free ≡ self.old.free }
        ensures few { length (all_images self.new) ≤ length (all_images self.old) + 1 }
        ensures starved { IsStarvedBy self.old.starved self.new.starved result }
        ensures still { (before : ℕ) (file : List ℕ) → StillChanged area before self.old self.new file }
    {
        let page = self.fresh;
        if page == u32::MAX {
            return Err(PageFault::Damaged(0));
        }
        match self.images.set(Home { area, page }, &ZEROS) {
            Ok(()) => {
                self.fresh = page + 1;
                Ok(page)
            }
            Err(_) => Err(self.starve()),
        }
    }

    /// Makes a page a free one, and the first.
    pub(crate) fn give(&mut self, home: Home) -> Result<(), PageFault>
        requires { IsPage home.area home.page }
        ensures linked { OnOk result ((file : List ℕ) → free_link home.page (imaged home.area (all_images self.new) file home.page) ≡ Some self.old.free) }
        ensures others { OnOk result ((file : List ℕ) (n : ℕ) → n ≢ home.page → imaged home.area (all_images self.new) file n ≡ imaged home.area (all_images self.old) file n) }
        ensures fresh { self.new.fresh ≡ self.old.fresh }
        ensures free { OnOk result (self.new.free ≡ home.page) }
        ensures kept { OnErr result (self.new.free ≡ self.old.free) }
        ensures few { length (all_images self.new) ≤ length (all_images self.old) + 1 }
        ensures starved { IsStarvedBy self.old.starved self.new.starved result }
        ensures memory { IfErr result (λ fault. fault ≡ Memory) }
        ensures still { (before : ℕ) (file : List ℕ) → StillChanged home.area before self.old self.new file }
    {
        let mut bytes = [0; PAGE];
        write_free(home.page, self.free, &mut bytes);
        match self.put(home, &bytes) {
            Ok(()) => {
                self.free = home.page;
                Ok(())
            }
            Err(fault) => Err(fault),
        }
    }
}
