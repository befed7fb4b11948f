// Edits a file's tree in place.
#![tactic(auto)]

ghost use Rattle.std.specs.Prelude.{◌-◌, ◌≤◌, ◌++◌, ◌≡◌, length, replicate, leb};
ghost use Rattle.format.specs.Promise.{Done};
ghost use Rattle.edit.specs.Tree.{HasTree};

use file::layout;
use format::layout::Tree;
use format::refusal::{Reason, Refusal};
use front::tree::is_one_tree;

// Replaces a file's tree by a text that is exactly one tree, and fills the rest of the tree's room with spaces.
pub fn edit(file: &mut [u8], text: &[u8]) -> Result<(), Refusal>
    ensures { Done file.old text.now file.new result }
{
    let layout = layout::read(file)?;
    edit_tree(file, text, layout.tree)
}

// Does the same for an accepted file whose tree is known. A refusal here concerns no place in the file, so it has the
// place 0.
fn edit_tree(file: &mut [u8], text: &[u8], tree: Option<Tree>) -> Result<(), Refusal>
    requires { HasTree file.old tree }
    ensures { Done file.old text.now file.new result }
{
    let Some(tree) = tree else {
        return Err(Refusal::new(Reason::EditWithoutTree, 0));
    };
    if !is_one_tree(text) {
        return Err(Refusal::new(Reason::TextNotOneTree, 0));
    }
    let from = tree.start.0 as usize;
    let to = tree.room_end.0 as usize;
    if !fits(text, from, to) {
        return Err(Refusal::new(Reason::TextLongerThanRoom, 0));
    }
    fill(&mut file[from..to], text);
    Ok(())
}

// Whether a text is no longer than the room from offset `from` to offset `to`.
fn fits(text: &[u8], from: usize, to: usize) -> bool
    requires { from ≤ to }
    ensures { result ≡ leb (length text.now) (to - from) }
{
    text.len() <= to - from
}

// Writes a text at the start of a room, and fills the rest of the room with spaces.
fn fill(room: &mut [u8], text: &[u8])
    requires { length text.now ≤ length room.old }
    ensures { room.new ≡ text.now ++ replicate (length room.old - length text.now) 32 }
{
    octets::copy(text, room);
    room[text.len()..].fill(b' ');
}
