//! The search for an object among those of a template's value.
ghost use Rattle.std.specs.Prelude.{◌≡◌};
ghost use Rattle.std.specs.Option.{option_map};
ghost use Rattle.ep_base.specs.Objects.Reading.{forest_of};
ghost use Rattle.ppse.specs.Listing.{is_top, next_in, left_after, first_in};

use tlv_core::{Node, Walk, read};

/// The next object that stands in no other and has this tag, constructed or primitive. The walk goes on behind it.
pub(crate) fn next_of(walk: &mut Walk<'_>, tag: u32, constructed: bool) -> Option<Node>
    ensures found { result ≡ next_in (is_top constructed tag) walk.old }
    ensures left { walk.new ≡ left_after (is_top constructed tag) walk.old }
{
    while let Some(node) = walk.next() {
        if node.depth == 0 && node.constructed == constructed && node.tag == tag {
            return Some(node);
        }
    }
    None
}

/// The value of the first object that stands in no other and has this tag, constructed or primitive. None also where
/// the bytes aren't objects.
pub(crate) fn first(bytes: &[u8], tag: u32, constructed: bool) -> Option<&[u8]>
    ensures { option_map (λ v. v.now) result ≡ first_in constructed tag (forest_of bytes.now) }
{
    let Ok(mut walk) = read(bytes) else {
        return None;
    };
    let node = next_of(&mut walk, tag, constructed)?;
    Some(&bytes[node.at..node.at + node.len])
}
