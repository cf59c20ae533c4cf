ghost use Rattle.std.specs.Prelude.{◌≡◌, ◌<◌, ◌/◌, [], length, slice_set};
ghost use Rattle.mvo_versions.specs.Skips.{is_post, post_at, skip_at, IsEmpty};
ghost use Rattle.mvo_versions.specs.Skips.{HasNoMore, IsForgotten, IsNoted};

use crate::skip::Skip;
use mvo_chain::{Pieces, VersionNo};
use mvo_types::Stamp;
use std::alloc::{AllocError, Global};
use std::marker::Model;
use std::mem::size_of;

/// Of so many numbers, one after another, one is that of a post.
const STEP: u32 = 128;

/// What stands for no version: no post has this number.
const NONE: VersionNo = VersionNo(u32::MAX);

/// What is kept at the number of a post: 16 bytes for 128 numbers.
#[derive(Clone, Copy, Debug)]
pub struct Post {
    /// None of the skip up to `to` begins below this.
    pub least: Stamp,
    /// Up to which post the skip goes that begins here.
    pub to: VersionNo,
    /// From which post the skip comes that ends here.
    pub from: VersionNo,
}

const _: () = prove!(size_of::<Post>() == 16);

impl Post {
    /// No skip.
    fn empty() -> Post
        ensures { IsEmpty result }
    {
        Post {
            least: Stamp(0),
            to: NONE,
            from: NONE,
        }
    }
}

/// The skips of versions that begin at posts. Contracts see the list of the posts, and speak of the
/// skip at a number. A skip that was noted may be gone at any time, but none comes by itself.
#[derive(Drop)]
pub struct Skips {
    alloc: Global,
    posts: Pieces<Post>,
}

impl Model for Skips {
    ghost use Rattle.std.specs.Prelude.{List};
    ghost use Rattle.mvo_versions.specs.declared.skips.Post.{Post as ThePost};

    ghost Value = { List ThePost };

    ghost view = { λ l. l.posts };
}

/// Whether the number is that of a post. They don't stand at regular distances, so that keys whose
/// versions are put in turn have posts each.
#[inline(always)]
pub fn is_post(number: VersionNo) -> bool
    ensures { result ≡ is_post number.0 }
{
    number.0 % STEP == number.0 / STEP * 3 % STEP
}

fn place_of(number: VersionNo) -> usize
    ensures { result ≡ number.0 / 128 }
{
    (number.0 / STEP) as usize
}

impl Skips {
    /// No skips. It takes no memory.
    pub fn new(alloc: Global) -> Skips
        ensures { result ≡ [] }
    {
        Skips {
            alloc,
            posts: Pieces::new(alloc),
        }
    }

    /// The skip that begins at the number, if one is known.
    pub fn skip(&self, number: VersionNo) -> Option<Skip>
        ensures { result ≡ skip_at self.now number.0 }
    {
        let first = self.post(number)?;
        let last = self.post(first.to)?;
        if last.from != number {
            return None;
        }
        Some(Skip {
            to: first.to,
            least: first.least,
        })
    }

    /// Forgets all skips.
    pub fn clear(&mut self)
        ensures { self.new ≡ [] }
    {
        self.posts = Pieces::new(self.alloc);
    }

    /// A version gets the number, or loses it: no skip begins there, and none ends there.
    #[inline(always)]
    pub fn forget(&mut self, number: VersionNo)
        ensures { IsForgotten self.old self.new number.0 }
    {
        if !is_post(number) {
            return;
        }
        let at = place_of(number);
        if at >= self.posts.len() {
            return;
        }
        self.set(at, Post::empty());
    }

    /// Makes room for the number. It takes 16 bytes for 128 numbers up to the largest. Where memory
    /// is refused, no skip begins there.
    pub fn reach(&mut self, number: VersionNo) -> Result<(), AllocError>
        ensures { HasNoMore self.old self.new }
    {
        let at = place_of(number);
        while self.posts.len() <= at {
            self.posts.push(Post::empty())?;
        }
        Ok(())
    }

    /// Notes a skip from a post to another one.
    pub fn lead(&mut self, number: VersionNo, skip: Skip)
        ensures { IsNoted self.old self.new number.0 skip }
    {
        let Some(first) = self.post(number) else {
            return;
        };
        self.set(
            place_of(number),
            Post {
                least: skip.least,
                to: skip.to,
                from: first.from,
            },
        );
        let Some(last) = self.post(skip.to) else {
            return;
        };
        self.set(
            place_of(skip.to),
            Post {
                least: last.least,
                to: last.to,
                from: number,
            },
        );
    }

    fn post(&self, number: VersionNo) -> Option<Post>
        ensures { result ≡ post_at self.now number.0 }
    {
        if !is_post(number) {
            return None;
        }
        self.posts.get(place_of(number)).copied()
    }

    fn set(&mut self, at: usize, post: Post)
        requires { at < length self.old }
        ensures { self.new ≡ slice_set self.old at post }
    {
        self.posts[at] = post;
    }
}
