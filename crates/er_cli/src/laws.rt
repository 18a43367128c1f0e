//! Laws of command lines, stated over the definitions only. A law is a function with no code of its own, whose contract is the law.

ghost use Rattle.std.specs.Prelude.{◌≡◌, ℕ, List, IsTrue, None, is_some};
ghost use Rattle.er_words.specs.Line.{line_of};
ghost use Rattle.sqlite.specs.Files.{over_files};
ghost use Rattle.er_cli.specs.Again.{ImportsAgain};
ghost use Rattle.er_cli.specs.GoingOn.{MigratesAsFound, MigrationsLead};
ghost use Rattle.er_cli.specs.Help.{asks_text, text_for};
ghost use Rattle.er_cli.specs.Stopped.{StopsAreExits};

use er_rules::laws::names_stay;
use sqlite_disk::Disk;

/// A list that was imported adds nobody when it is imported once more. One whose import was stopped anywhere and is imported again gives
/// the event of one import.
pub fn imports_again()
    ensures { ImportsAgain }
{
    names_stay();
}

/// What a crash may leave of a file at any instant, it may also leave at the exit of a run in which each call from there on fails.
pub fn stops_are_exits()
    ensures { StopsAreExits }
{}

/// Words ask for a text exactly if there is one for them, and no such words are a line.
pub fn texts_are_asked()
    ensures exactly { (words : List (List ℕ)) → asks_text words ≡ is_some (text_for words) }
    ensures no_line { (words : List (List ℕ)) → IsTrue (asks_text words) → line_of words ≡ None }
{}

/// A desk may move its tables if the file that it opened allows that, and the event then stays at its point, in the version to which the
/// migration leads.
pub fn migrations_go_on<D: Disk + Drop>()
    ensures may { MigratesAsFound D.Disk }
    ensures lead { MigrationsLead (over_files {g = D.Disk}) }
{}
