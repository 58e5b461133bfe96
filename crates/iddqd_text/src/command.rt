//! What differs between the commands of the two kinds of map.
ghost use Rattle.std.specs.Prelude.{◌≡◌, ℕ, List, Option, IfOk, string_bytes};
ghost use Rattle.std.specs.Option.{option_map};
ghost use Rattle.iddqd_text.specs.Commands.{Spelled};
ghost use Rattle.iddqd_text.specs.declared.words.Word.{Word};

use crate::words::Word;
use std::alloc::{AllocError, Global};

/// A command of one kind of map.
pub trait Command: Drop {
    /// The type of the map's items.
    type Item;

    // The command that a word with its numbers spells, if it spells one.
    ghost command_of: { Word → List ℕ → Option (Spelled Self Self.Item) };

    // The word and the numbers that spell a command.
    ghost spelled: { Self → Spelled Self Self.Item };

    // What a run of commands on a new map prints.
    ghost Prints: { List Self → List ℕ → Type 0 };

    /// Returns the command that a word with these numbers spells, or `None` if it spells none. It allocates memory only
    /// for a list of items.
    fn command_of(alloc: Global, word: Word, numbers: &[u64]) -> Result<Option<Self>, AllocError>
        ensures { IfOk result (λ found. option_map spelled found ≡ command_of word numbers.now) };

    /// Runs the commands on a new map, and returns the lines that they print.
    fn run_commands(alloc: Global, commands: Vec<Self>) -> Result<String, AllocError>
        ensures { IfOk result (λ output. Prints commands.items (string_bytes output)) };
}
