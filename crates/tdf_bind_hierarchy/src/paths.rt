//! Dotted paths that share their fronts.
//!
//! Names may nest a thousand deep, and thousands of paths may have one front. So a path is its last name and a shared pointer
//! to the path of what it is in: it takes memory for one name alone, and its text is made where it is printed.

ghost use Rattle.std.specs.Prelude.{◌≡◌, ◌+◌, ◌++◌, IfOk, OnErr, OnOk, min, length, take};
ghost use Rattle.tdf_bind_hierarchy.specs.Paths.{path_in};

use std::alloc::Global;
use std::marker::Model;
use std::rc::Rc;
use tdf_base::{Memory, Name, Path, push_word};

/// A dotted path, as `left.amplifier.out`, seen as its text.
#[cycle(path)]
#[derive(Drop)]
pub struct SharedPath {
    link: Rc<Link>,
}

/// The last name of a path, with the path of what it is in.
#[cycle(path)]
#[derive(Drop)]
enum Link {
    Top(Name),
    Inside(SharedPath, Name),
}

impl Model for SharedPath {
    ghost use Rattle.std.specs.Prelude.{List, ℕ, length};

    ghost Value = { List ℕ };

    ghost use Rattle.tdf_bind_hierarchy.specs.machine.LinkText.{link_text};

    ghost view = { λ a. link_text a.link.value };

    ghost size = { length };

    ghost use Rattle.std.proofs.Common.{arith, length-append};

    ghost size_decreases = { λ a h. Prim.grind (arith, length-append) };
}

impl SharedPath {
    /// The path of a name in what `front` is the path of, or at the top of the model. The front is shared.
    ///
    /// # Errors
    /// Out of memory.
    pub fn named(
        alloc: Global,
        front: &Option<SharedPath>,
        name: &Name,
    ) -> Result<SharedPath, Memory>
        ensures { IfOk result (λ path. path ≡ path_in front.now name.now) }
    {
        let own = Name::copied(alloc, name.as_bytes())?;
        let link = match front {
            None => Link::Top(own),
            Some(path) => Link::Inside(path.shared()?, own),
        };
        Ok(SharedPath {
            link: Rc::new(alloc, link)?,
        })
    }

    /// The same path, without a copy of its text.
    ///
    /// # Errors
    /// Out of memory.
    pub fn shared(&self) -> Result<SharedPath, Memory>
        ensures { IfOk result (λ path. path ≡ self.now) }
    {
        Ok(SharedPath {
            link: self.link.clone()?,
        })
    }

    /// How many bytes the text of this path has, or `limit` where it has more. It takes no memory, and goes as deep as
    /// the path has names.
    pub fn len_up_to(&self, limit: usize) -> usize
        ensures { result ≡ min (length self.now) limit }
    {
        match &*self.link {
            Link::Top(name) => name.as_bytes().len().min(limit),
            Link::Inside(front, name) => sum_up_to(
                front.len_up_to(limit),
                name.as_bytes().len(),
                limit,
            ),
        }
    }

    /// The text of this path. The call goes as deep as the path has names.
    ///
    /// # Errors
    /// Out of memory.
    pub fn text(&self, alloc: Global) -> Result<Path, Memory>
        ensures { IfOk result (λ path. path ≡ self.now) }
    {
        let mut text = Vec::new(alloc);
        self.push_text(&mut text)?;
        Ok(Path::new(text))
    }

    /// Appends the text of this path. The call goes as deep as the path has names.
    ///
    /// # Errors
    /// Out of memory; `out` is then unchanged.
    pub fn push_text(&self, out: &mut Vec<u8>) -> Result<(), Memory>
        ensures whole { OnOk result (out.new.items ≡ out.old.items ++ self.now) }
        ensures kept { OnErr result (out.new.items ≡ out.old.items) }
    {
        let start = out.len();
        match self.push_names(out) {
            Ok(()) => Ok(()),
            Err(error) => {
                out.truncate(start);
                Err(error)
            }
        }
    }

    fn push_names(&self, out: &mut Vec<u8>) -> Result<(), Memory>
        ensures ok { OnOk result (out.new.items ≡ out.old.items ++ self.now) }
        ensures kept { take (length out.old.items) out.new.items ≡ out.old.items }
    {
        match &*self.link {
            Link::Top(name) => push_word(out, name.as_bytes()),
            Link::Inside(front, name) => {
                front.push_names(out)?;
                out.push(b'.')?;
                push_word(out, name.as_bytes())
            }
        }
    }
}

/// A front and a name with the point between them, at most a limit.
fn sum_up_to(front: usize, name: usize, limit: usize) -> usize
    ensures { result ≡ min (front + (1 + name)) limit }
{
    front.saturating_add(1).saturating_add(name).min(limit)
}
