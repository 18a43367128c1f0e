ghost use Rattle.std.specs.Prelude.{◌≡◌, map, option_map, string_bytes};
ghost use Rattle.er_cli.specs.Help.{option_text, subcommand_text, text_for};

/// What `--version` prints.
pub const VERSION: &str = "event_reporter 0.1.0\n";

/// What `--help` prints, and what standard error gets if the first word isn't a subcommand.
pub const HELP: &str = "\
usage: event_reporter SUBCOMMAND FILE WORDS
       event_reporter < SCRIPT

Keeps one event of a Magic Swiss tournament in FILE. Once a command is answered
`ok`, it is in the file, even if the program is stopped right after.

At a table, `event-desk FILE` starts the prompt. event-sheets prints pairings,
slips and standings, event-phones takes scores from phones, and event-check
checks an event by a second reading of the rules. Each says more by --help.

  init FILE NAME ROUNDS CUT       creates the event: 1 to 12 rounds, and a cut
                                  to 0, 2, 4 or 8 players
  enrol FILE NAME                 enrols a player, who gets the next number
  import FILE CSV                 enrols the players in a list
  start FILE                      begins the rounds
  pair FILE ROUND SEED            pairs the next round
  result FILE ROUND TABLE X Y D   enters a score: games won by the player named
                                  first, by the second, and drawn
  correct FILE ROUND TABLE X Y D  replaces a score
  drop FILE PLAYER                drops the player with this number
  cut FILE                        seeds the playoff, after the last round
  playoff FILE STAGE SLOT X Y D   enters a playoff score
  players FILE                    lists the players by number
  standings FILE                  lists the players by rank
  slips FILE ROUND                lists the matches of a round
  bracket FILE                    lists the matches of the playoff
  export FILE KIND                prints a CSV of the players, or of the results
  serve FILE PORT COUNT           takes scores from programs on this machine
  migrate FILE                    moves the file of an older program to the
                                  tables of this one

  SUBCOMMAND --help               says more about one of them, with an example
  -h, --help, -V, --version       prints this text, or the version

Copy FILE while nothing uses it, before each pair, cut, drop and migrate: a copy
is the only way back. Without words, the program reads the same commands as a
script, one per line without FILE, the words separated by one TAB. A script
keeps its event in memory only:

  printf 'init\\tFriday\\t3\\t0\\nplayers\\n' | event_reporter

A command that is taken is answered `ok` and the number of commands so far. One
that isn't is answered `refused`, a number and a name, and changes nothing: the
man page has the 30 refusals, with what to do. The status is 0, or 1 if it was
refused or a list is faulty, 2 for wrong words, 3 if the file or another device
failed, and 4 for Memory.
";

pub const INIT: &str = "\
usage: event_reporter init FILE NAME ROUNDS CUT

Creates an event in FILE, and FILE itself if it is not there yet. Other tables
in the file stay.

  NAME    1 to 60 bytes of text, in quotes if it has spaces
  ROUNDS  the number of Swiss rounds: 1 to 12
  CUT     how many players go on to the playoff: 0 for none, 2, 4 or 8

Example: event_reporter init friday.event 'Friday Night' 3 4
Answers `ok 0`, or refuses: 24 Memory, 25 Store, 28 EventExists, 30 BadSetup.
";

pub const ENROL: &str = "\
usage: event_reporter enrol FILE NAME

Enrols a player, who gets the next number: before the start, or after it as long
as a round is still to be paired. A late player gets a loss for each round that
is already paired, with no opponent. A name can't be changed later.

  NAME    1 to 60 bytes of text, in quotes if it has spaces; no other player
          may have it

Example: event_reporter enrol friday.event 'Ana Lima'
Refuses: 1 BadName, 2 NameTaken, 3 PlayersFull, 4 NotEnrolling,
9 AllRoundsPaired, 23 SerialFull, 24 Memory, 25 Store, 27 NoEvent, 29 Damaged;
30 BadSetup after the start, if an older program made FILE: migrate it first.
";

pub const IMPORT: &str = "\
usage: event_reporter import FILE CSV

Enrols the players in a list, in its order. A name that is already enrolled is
counted and skipped, so a list that has grown can be imported again. Any other
refusal stops the import, and the players enrolled before it stay. After the
start the same holds as for enrol.

  CSV     a file of at most 131072 bytes: a line `name`, and then one name per
          line, in double quotes if it has a comma; or the players as `export`
          prints them, of which only the names are used. /dev/stdin reads a pipe

Example: event_reporter import friday.event names.csv
   then: printf 'name\\nAna\\nBo\\n' |
         event_reporter import friday.event /dev/stdin
Answers `added` and `already`, each with its number. A faulty list is answered
`bad csv heading`, or `bad csv row` and the number of the row, and nobody is
enrolled; rows are counted from 1 after the heading, up to 512. A list that
can't be read or is too long is answered `cannot read`, with status 3.
Refuses: 3 PlayersFull, 4 NotEnrolling, 9 AllRoundsPaired, 23 SerialFull,
24 Memory, 25 Store, 27 NoEvent, 29 Damaged; 30 BadSetup as for enrol.
";

pub const START: &str = "\
usage: event_reporter start FILE

Begins the Swiss rounds. Two players or more must have enrolled. From then on
players can drop, and a player who enrols is late: see enrol --help.

Example: event_reporter start friday.event
Refuses: 4 NotEnrolling, 5 TooFewPlayers, 23 SerialFull, 24 Memory, 25 Store,
27 NoEvent, 29 Damaged.
";

pub const PAIR: &str = "\
usage: event_reporter pair FILE ROUND SEED

Pairs the next round. The round before it must have all its scores. A round
can't be paired again: check the players and drops first, and copy FILE.

  ROUND   the number of the round, from 1
  SEED    64 hexadecimal digits, which decide the order of players with equal
          points: use a new one for each round. Write it down first: it is not
          kept in the file, and with it anybody can work out the same round

A seed:  k=$(openssl rand -hex 32); echo \"round 1 $k\" >> friday.event.keys
Example: event_reporter pair friday.event 1 $k
Refuses: 5 TooFewPlayers, 6 NotSwiss, 7 WrongRound, 8 RoundOpen,
9 AllRoundsPaired, 10 NoPairing, 11 Budget, 23 SerialFull, 24 Memory, 25 Store,
27 NoEvent, 29 Damaged.
";

pub const RESULT: &str = "\
usage: event_reporter result FILE ROUND TABLE X Y D

Enters the score of a match that has none.

  ROUND TABLE  as slips lists them
  X Y          games won by the player named first, and by the second:
               0 to 2, not both 2
  D            games drawn: 0 to 3

Example: event_reporter result friday.event 1 2 2 1 0
Refuses: 6 NotSwiss, 12 NoSuchMatch, 13 BadScore, 14 AlreadyReported, 16 IsBye,
23 SerialFull, 24 Memory, 25 Store, 27 NoEvent, 29 Damaged.
";

pub const CORRECT: &str = "\
usage: event_reporter correct FILE ROUND TABLE X Y D

Replaces the score of a match. Rounds paired since then stay as they are.

  ROUND TABLE  as slips lists them
  X Y          games won by the player named first, and by the second:
               0 to 2, not both 2
  D            games drawn: 0 to 3

Example: event_reporter correct friday.event 1 2 0 2 0
Refuses: 6 NotSwiss, 12 NoSuchMatch, 13 BadScore, 15 NotReported, 16 IsBye,
23 SerialFull, 24 Memory, 25 Store, 27 NoEvent, 29 Damaged.
";

pub const DROP: &str = "\
usage: event_reporter drop FILE PLAYER

Drops a player, who stays in the standings, is not paired again and can't come
back. An open match still needs its score.

  PLAYER  the player's number, as players lists it

Example: event_reporter drop friday.event 3
Refuses: 6 NotSwiss, 17 NoSuchPlayer, 18 AlreadyDropped, 23 SerialFull,
24 Memory, 25 Store, 27 NoEvent, 29 Damaged.
";

pub const CUT: &str = "\
usage: event_reporter cut FILE

Seeds the playoff with the top players of the standings, without those who have
dropped. All rounds must be complete. After the cut their scores can't be
corrected: check the standings first, and copy FILE.

Example: event_reporter cut friday.event
Refuses: 6 NotSwiss, 19 RoundsNotDone, 20 NoCut, 21 TooFewForCut, 23 SerialFull,
24 Memory, 25 Store, 27 NoEvent, 29 Damaged.
";

pub const PLAYOFF: &str = "\
usage: event_reporter playoff FILE STAGE SLOT X Y D

Enters the score of a playoff match. It can't be corrected later: check it
twice.

  STAGE SLOT  as bracket lists them
  X Y         games won by the player named first, and by the second:
              0 to 3, not equal
  D           games drawn: 0 to 3

Example: event_reporter playoff friday.event 1 1 2 0 0
Refuses: 12 NoSuchMatch, 13 BadScore, 14 AlreadyReported, 22 NotPlayoff,
23 SerialFull, 24 Memory, 25 Store, 27 NoEvent, 29 Damaged.
";

pub const STANDINGS: &str = "\
usage: event_reporter standings FILE

Lists the players by rank, with match points, the opponents' match-win
percentage, the player's own game-win percentage and the opponents' game-win
percentage. Only complete rounds count.

Example: event_reporter standings friday.event
Refuses: 24 Memory, 25 Store, 27 NoEvent, 29 Damaged.
";

pub const PLAYERS: &str = "\
usage: event_reporter players FILE

Lists the players by number, with a D for those who have dropped.

Example: event_reporter players friday.event
Refuses: 24 Memory, 25 Store, 27 NoEvent, 29 Damaged.
";

pub const SLIPS: &str = "\
usage: event_reporter slips FILE ROUND

Lists the matches of a round that was paired: the table, the numbers of the two
players, the score or a -, and their names. A bye comes last.

  ROUND   the number of the round, from 1

Example: event_reporter slips friday.event 1
   then, which tables are open:
         event_reporter slips friday.event 1 | awk '$4 == \"-\"'
Refuses: 12 NoSuchMatch, 24 Memory, 25 Store, 27 NoEvent, 29 Damaged.
";

pub const BRACKET: &str = "\
usage: event_reporter bracket FILE

Lists the matches of the playoff, stage by stage, and then its champion.

Example: event_reporter bracket friday.event
Refuses: 24 Memory, 25 Store, 27 NoEvent, 29 Damaged.
";

pub const EXPORT: &str = "\
usage: event_reporter export FILE KIND

Prints a CSV, for a spreadsheet or another program: a heading, and then one line
per player or match. The playoff is not in it; see bracket.

  KIND    players: their numbers and names, and a 1 for those who have dropped
          results: the matches of the rounds that were paired, with their
          scores; a bye has table 0 and b 0

Example: event_reporter export friday.event players > players.csv
   then: event_reporter export friday.event results > results.csv
Refuses: 24 Memory, 25 Store, 27 NoEvent, 29 Damaged.
";

pub const SERVE: &str = "\
usage: event_reporter serve FILE PORT COUNT

Takes scores over HTTP from programs on this machine, such as a script, a form
or curl in a second window, so that they don't open FILE themselves. It listens
on 127.0.0.1: no phone and no other machine reaches it.

It serves one connection at a time, each for at most 30 seconds, and prints
`listening` and its port. While it serves, no other command can open FILE. It
ends after COUNT connections. Ctrl-C stops it, and a score that was answered
with a serial is kept.

  PORT    0 to 65535; 0 takes any that is free
  COUNT   the connections to serve: 1 to 1000000

  GET  /standings                      the standings, as text
  GET  /rounds/ROUND                   the pairings of a round, as text
  GET  /rounds/ROUND/tables/TABLE      the slip of a match, as JSON
  POST /rounds/ROUND/tables/TABLE      hands in a score, as {\"a\":X,\"b\":Y,\"d\":D}

Example: event_reporter serve friday.event 8080 100
   then: curl http://127.0.0.1:8080/rounds/1/tables/1
   then: curl -d '{\"a\":2,\"b\":1,\"d\":0}' \\
         http://127.0.0.1:8080/rounds/1/tables/1
Refuses: 24 Memory, 25 Store, 27 NoEvent, 29 Damaged. If it can't listen, the
status is 3.
";

pub const MIGRATE: &str = "\
usage: event_reporter migrate FILE

Moves the event of an older program to tables of version 2, which this program
uses for new events. You need it only for what the older tables can't hold, such
as a player who comes after the start; otherwise the file works as it is. A file
of version 2 stays as it is.

It can't be undone, and an older program then refuses the file. So copy FILE
first, for example by cp friday.event friday.copy. Whenever the command is
stopped, the whole event is there, in one version or the other.

Example: event_reporter migrate friday.event
Answers `ok` and the number of commands taken so far, which stays the same.
Refuses: 24 Memory, 25 Store, 27 NoEvent, 29 Damaged. 25 also comes if FILE has
a table player2 that is not the event's; then nothing changes.
";

/// What a person is told if the port can't be had.
pub const CANNOT_LISTEN: &str = "\
event_reporter: cannot listen on this port: another program may use it, or it is
below 1024. Try port 0, which takes any that is free.
";

/// What a terminal is told if there are no words, since a prompt that says nothing looks as if it hung.
pub const AWAITING: &str = "\
event_reporter: no words were given, so it reads a script from this terminal:
one command per line, the words separated by one TAB. Ctrl-D ends the script,
Ctrl-C stops the program. For an event in a file, try: event_reporter --help
";

/// The text that an option asks for: this help, or the version.
fn option_text(help: &'static str, word: &str) -> Option<&'static str>
    ensures { option_map (λ text. text.now) result ≡ option_text help.now word.now }
{
    match word {
        "--help" | "-h" => Some(help),
        "--version" | "-V" => Some(VERSION),
        _ => None,
    }
}

/// What there is to know of the subcommand that has this name.
pub fn subcommand_text(name: &str) -> Option<&'static str>
    ensures { option_map (λ text. text.now) result ≡ subcommand_text name.now }
{
    match name {
        "init" => Some(INIT),
        "enrol" => Some(ENROL),
        "import" => Some(IMPORT),
        "start" => Some(START),
        "pair" => Some(PAIR),
        "result" => Some(RESULT),
        "correct" => Some(CORRECT),
        "drop" => Some(DROP),
        "cut" => Some(CUT),
        "playoff" => Some(PLAYOFF),
        "standings" => Some(STANDINGS),
        "players" => Some(PLAYERS),
        "slips" => Some(SLIPS),
        "bracket" => Some(BRACKET),
        "export" => Some(EXPORT),
        "serve" => Some(SERVE),
        "migrate" => Some(MIGRATE),
        _ => None,
    }
}

/// The text that the words ask for: an option by itself, or after a subcommand.
pub fn text_for(words: &[String]) -> Option<&'static str>
    ensures { option_map (λ text. text.now) result ≡ text_for (map string_bytes words.now) }
{
    match words {
        [word] => option_text(HELP, word.as_str()),
        [name, word] => option_text(subcommand_text(name.as_str())?, word.as_str()),
        _ => None,
    }
}
