//! How often a release looks at pages, in an image of many files.

ghost use Rattle.std.specs.Prelude.{◌≡◌, ◌≤◌, ◌∷◌, [], IfSome, length};
ghost use Rattle.trio_state.specs.Kept.{Kept};
ghost use Rattle.trio_state.specs.Run.{start};
ghost use Rattle.trio_ctl.specs.Ctl.{NoneBegun};
ghost use Rattle.trio_ctl.specs.HandedIn.{WereLent};
ghost use Rattle.trio_script.specs.Within.{AreWithin};
ghost use Rattle.trio_runner.specs.Play.{creds_in};

use crate::controllers::started_on;
use crate::moves::taken;
use std::alloc::Global;
use trio_ctl::Ctl;
use trio_gen::{directories_script, files_script};
use trio_image::{Image, make};
use trio_lease::Bundle;
use trio_names::Path;
use trio_nodes::ReleaseAnswer;
use trio_page::Reads;
use trio_rights::LibNo;
use trio_runner::{RawAndHonest, creds_of, play};
use trio_script::ScriptLib;

/// The image that the generated workload of 1,000 files leaves.
fn workload_image(alloc: Global) -> Option<Image> {
    let made = make(alloc, 8192, 2048).ok()?;
    let directories = directories_script(alloc).ok()?;
    let image = left_by(alloc, made, &directories)?;
    let files = files_script(alloc, 7, 1000).ok()?;
    left_by(alloc, image, &files)
}

/// The image that a script leaves.
fn left_by(alloc: Global, image: Image, libs: &[ScriptLib]) -> Option<Image>
    requires some { 1 ≤ length libs.now }
    requires few { length libs.now ≤ 16 }
    requires within { AreWithin libs.now }
{
    let creds = creds_of(alloc, libs).ok()?;
    let Ok(mut ctl) = Ctl::start(alloc, image, creds) else {
        return None;
    };
    is_played(alloc, &mut ctl, libs)?;
    ctl.into_image().ok()
}

fn is_played(alloc: Global, ctl: &mut Ctl, libs: &[ScriptLib]) -> Option<()>
    requires kept { Kept ctl.old.state }
    requires started { ctl.old.state ≡ start ctl.old.state.home (creds_in libs.now) }
    requires unlogged { ctl.old.log ≡ [] }
    requires idle { NoneBegun ctl.old }
    requires few { length libs.now ≤ 16 }
    requires within { AreWithin libs.now }
{
    play::<RawAndHonest>(alloc, ctl, libs).ok()?;
    Some(())
}

/// What a release came to.
#[derive(Clone, Copy)]
pub struct Looks {
    pub is_accepted: bool,
    /// How often a page at home was looked at, as home counts.
    pub looked: u64,
    /// And how often it was, or one of the bundle, as the release counts.
    pub reads: u64,
}

/// The release of a file that the first library takes for writing and leaves untouched.
fn looks_for(alloc: Global, ctl: &mut Ctl, ino: u32) -> Option<Looks>
    requires { length ctl.old.state.creds ≡ 2 }
{
    let bundle = taken(alloc, ctl, ino)?;
    released(ctl, bundle)
}

/// The release of a bundle of write leases, where it is the first library's; `None` where it comes back.
pub fn released(ctl: &mut Ctl, bundle: Bundle) -> Option<Looks>
    requires two { length ctl.old.state.creds ≡ 2 }
    requires holds { bundle.holds ≡ [] }
    requires lent { WereLent ctl.old.state 1 bundle.writes }
{
    if !ctl.belongs(LibNo(1), &bundle) || !ctl.idle(LibNo(1)) {
        bundle.discard();
        return None;
    }
    let before = ctl.looked();
    let mut reads = Reads::new();
    match ctl.release(LibNo(1), bundle, &mut reads) {
        Ok(answer) => Some(Looks {
            is_accepted: matches!(answer, ReleaseAnswer::Accepted),
            looked: ctl.looked().saturating_sub(before),
            reads: reads.count(),
        }),
        Err((bundle, _)) => {
            bundle.discard();
            None
        }
    }
}

/// The release of the file of this path in that image.
fn looks_at(alloc: Global, path: &[u8]) -> Option<Looks> {
    let mut image = workload_image(alloc)?;
    let ino = image
        .nodes(alloc)
        .ok()?
        .find(&Path::read(alloc, path).ok()?)?;
    let mut ctl = started_on(alloc, image, 0)?;
    looks_for(alloc, &mut ctl, ino)
}

// The file has an index page and a block. A release looks at most three times at each page of its
// bundle, once of these at home, and once at the page of the file's body.
#[test]
fn a_release_looks_at_its_own_pages(rt: HostRuntime) {
    let looks = looks_at(rt.alloc(), b"/d1/a/f0");
    assert!(rt;
        matches!(
            looks,
            Some(Looks {
                is_accepted: true,
                looked: 0..=3,
                reads: 0..=7
            })
        )
    );
}
