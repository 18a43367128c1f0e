ghost use Rattle.std.specs.Prelude.{◌≡◌, ◌≤◌, IfOk, IfErr};
ghost use Rattle.er_event.specs.Change.{after, Fits};
ghost use Rattle.er_event.specs.declared.commands.TheConstants.{MAX_SERIAL};
ghost use Rattle.er_rules.specs.Sound.{IsSound};
ghost use Rattle.er_store.specs.Store as tables;
ghost use Rattle.er_rules.specs.Late.{is_late};

use crate::stored::read_standings;
use er_event::laws::events_are_sound;
use er_event::{Change, Command, Event, MAX_SERIAL, Name, Phase, Place, Receipt, Refusal, SlipRow};
use er_rank::{Row, standings};
use er_rules::laws::{budget_searches, steps_are_taken};
use er_rules::{decide, seeds_agree};
use er_store::Store;
use er_store::laws::shown_is_stored;
use sqlite::{Alter, Connection};
use std::alloc::{AllocError, Global};

/// A receipt, or why there is none.
pub type Reply = Result<Receipt, Refusal>;

/// The event after a change. The event itself stays.
fn event_after(alloc: Global, event: &Event, change: &Change) -> Result<Event, Refusal>
    requires { Fits event.now change.now }
    ensures ok { IfOk result (λ next. next ≡ after event.now change.now) }
    ensures refused { IfErr result (λ why. why ≡ Refusal.Memory) }
{
    let copy = event.copy(alloc)?;
    copy.apply(alloc, change)
        .map_err(|(_event, error)| error.into())
}

/// Whether a player comes after the start, to tables of version 1: these have no place for the rounds that somebody missed.
fn is_late(version: u8, event: &Event, command: &Command) -> bool
    ensures { result ≡ is_late version event.now command.now }
{
    match command {
        Command::Enrol { .. } => version == 1 && event.phase() == Phase::Swiss,
        _ => false,
    }
}

/// An event, the store that keeps it, and how many commands it has taken. After a fault of the store it takes no command: the file is
/// opened anew.
#[derive(Drop)]
pub struct Desk<S: Alter> {
    store: Store<S>,
    event: Event,
    serial: u32,

    ghost low: { serial ≤ MAX_SERIAL },
    ghost sound: { ∥ IsSound event ∥₁ },
}

impl<S: Alter> Desk<S> {
    ghost use Rattle.std.specs.Prelude.{◌≡◌, ◌⊎◌, ◌+◌, ◌<◌, ◌≤◌, ℕ, true, false, Err, IfOk, IfErr, MatchResult, IsTrue};
    ghost use Rattle.std.specs.Prelude.{IsFalse};
    ghost use Rattle.sqlite.specs.Held as sqlite;
    ghost use Rattle.er_event.specs.{Change.{after, Fits}, Version.CanTake};
    ghost use Rattle.er_event.specs.declared.commands.TheConstants.{MAX_SERIAL};
    ghost use Rattle.er_rules.specs.Sound.{IsSound};
    ghost use Rattle.er_rules.specs.Step.{NeedsMoreSteps};
    ghost use Rattle.er_store.specs.Store as tables;
    ghost use Rattle.er_store.specs.{Slip.FindsSlipOrFails, Calls.OrFails};
    ghost use Rattle.er_desk.specs.{Looking.{ReadsTables, FindsOwn}, Begins.{CreatesDesk, AdoptsDesk}};
    ghost use Rattle.er_desk.specs.Desk.{IfRunning, HoldsOwnEvent, placed_of, state, desk_state, version_in};
    ghost use Rattle.er_desk.specs.Run.{Runs, IsRun, session_of};
    ghost use Rattle.er_desk.specs.Headline.{RecoversJust, RepeatsNobody, AreTheStandings};
    ghost use Rattle.er_desk.specs.Run.{no_session};
    ghost use Rattle.er_desk.specs.Asking.{Asks, AsksThen, Submits, SubmitsAsk};
    ghost use Rattle.er_desk.specs.Migrating.{MovesDesk};
    ghost use Rattle.er_desk.specs.inside.Taking.{TakesChange};

    /// Makes the tables of a new event. Its limits are checked before the file is touched. A refusal gives the connection back.
    pub fn create(
        alloc: Global,
        conn: Connection<S>,
        name: Name,
        rounds: u8,
        cut: u8,
    ) -> Result<Desk<S>, (Connection<S>, Refusal)>
        requires mode { conn.in_transaction ≡ false }
        ensures { CreatesDesk S.Store name rounds cut conn result }
    {
        let event = match Event::create(alloc, name, rounds, cut) {
            Ok(event) => event,
            Err(why) => return Err((conn, why)),
        };
        let store = Store::create(conn, &event)?;
        Ok(Desk {
            store,
            event,
            serial: 0,
        })
    }

    /// Takes over the tables of an event. It changes no table. A refusal gives the connection back.
    pub fn adopt(alloc: Global, conn: Connection<S>) -> Result<Desk<S>, (Connection<S>, Refusal)>
        requires mode { conn.in_transaction ≡ false }
        ensures { AdoptsDesk S.Store conn result }
    {
        let (store, event, serial) = Store::adopt(alloc, conn)?;
        match seeds_agree(alloc, &event) {
            Ok(true) => Ok(Desk {
                store,
                event,
                serial,
            }),
            Ok(false) => Err((
                store.into_connection(),
                Refusal::Damaged {
                    table: Place::BracketTable,
                },
            )),
            Err(_error) => Err((store.into_connection(), Refusal::Memory)),
        }
    }

    /// The event, if no fault of the store came before.
    pub fn event(&self) -> Result<&Event, Refusal>
        ensures value { IfOk result (λ event. event.now ≡ self.now.event) }
        ensures repeats { IfOk result (λ event. RepeatsNobody event.now) }
        ensures needs_reopen { IfRunning (desk_state self.now) result }
    {
        if self.needs_reopen() {
            return Err(Refusal::NeedsReopen);
        }
        Ok(&self.event)
    }

    /// How many commands were accepted, if no fault of the store came before.
    pub fn serial(&self) -> Result<u32, Refusal>
        ensures value { IfOk result (λ serial. (serial ≡ self.now.serial) × (serial ≤ MAX_SERIAL)) }
        ensures needs_reopen { IfRunning (desk_state self.now) result }
    {
        if self.needs_reopen() {
            return Err(Refusal::NeedsReopen);
        }
        Ok(self.serial)
    }

    /// The standings of the event.
    pub fn standings(&self, alloc: Global) -> Result<Vec<Row>, Refusal>
        ensures value { IfOk result (λ rows. AreTheStandings self.now.event rows.items) }
        ensures needs_reopen { MatchResult result (λ _. IsFalse (desk_state self.now).needs_reopen)
            (λ why. (IsTrue (desk_state self.now).needs_reopen × (why ≡ Refusal.NeedsReopen))
            ⊎ (IsFalse (desk_state self.now).needs_reopen × (why ≡ Refusal.Memory))) }
    {
        let event = self.event()?;
        Ok(standings(alloc, event)?)
    }

    /// The standings of the event, by the totals and the meetings that its tables keep. It changes no table. An answer with standings
    /// leaves the desk as it is, and so does running out of memory to work them out.
    pub fn stored_standings(&mut self, alloc: Global) -> Result<Vec<Row>, Refusal>
        ensures reads { ReadsTables S.Store Refusal.Memory self.old result self.new }
        ensures found { FindsOwn S.Store
            (OrFails (λ rows. AreTheStandings self.old.event rows.items)) self.old result self.new }
    {
        // A crash leaves what the tables represent, and an event is always sound: these tell the proof.
        shown_is_stored(&self.store);
        events_are_sound(&self.event);
        if self.needs_reopen() {
            return Err(Refusal::NeedsReopen);
        }
        read_standings(alloc, &mut self.store)
    }

    /// Reads the slip of a match. It changes no table. A slip, or no such match, leaves the desk as it is.
    pub fn slip(&mut self, alloc: Global, round: u8, table: u16) -> Result<SlipRow, Refusal>
        ensures reads { ReadsTables S.Store Refusal.NoSuchMatch self.old result self.new }
        ensures found { FindsOwn S.Store (FindsSlipOrFails self.old.event round table) self.old
            result self.new }
    {
        // A crash leaves what the tables represent, and an event is always sound: these tell the proof.
        shown_is_stored(&self.store);
        events_are_sound(&self.event);
        if self.needs_reopen() {
            return Err(Refusal::NeedsReopen);
        }
        self.store.slip(alloc, round, table)
    }

    /// A desk that is only looked at asks nothing of its file. It is a law, with no code of its own.
    pub fn asks_nothing(&self)
        ensures { Asks S.Store self.now no_session self.now }
    {
        // A crash leaves what the tables represent: this tells the proof.
        shown_is_stored(&self.store);
    }

    /// Two calls of a desk, one after the other, ask the two sessions in that order. It is a law, with no code of its own.
    pub fn asks_then(&self)
        ensures { AsksThen S.Store }
    {}

    /// Handing one command to a desk asks a session of this one command. It is a law, with no code of its own.
    pub fn submits_ask(&self)
        ensures { SubmitsAsk S.Store }
    {}

    /// The version in which the tables are kept, 1 or 2, if no fault of the store came before.
    pub fn version(&self) -> Result<u8, Refusal>
        ensures value { IfOk result (λ version. version ≡ version_in self.now) }
        ensures needs_reopen { IfRunning (desk_state self.now) result }
    {
        if self.needs_reopen() {
            return Err(Refusal::NeedsReopen);
        }
        Ok(self.store.version())
    }

    /// Moves the tables to version 2, and gives the serial, which stays. A desk whose tables are of version 2 stays as it is.
    pub fn migrate(&mut self) -> Result<u32, Refusal>
        ensures { MovesDesk S.Store self.old result self.new }
    {
        // A crash leaves what the tables represent: this tells the proof.
        shown_is_stored(&self.store);
        if self.needs_reopen() {
            return Err(Refusal::NeedsReopen);
        }
        if self.store.version() == 2 {
            return Ok(self.serial);
        }
        self.store
            .migrate(&self.event, self.serial)
            .and(Ok(self.serial))
    }

    /// Whether a fault of the store came before, so that the file has to be opened anew.
    pub fn needs_reopen(&self) -> bool
        ensures { result ≡ (desk_state self.now).needs_reopen }
    {
        self.store.needs_reopen()
    }

    /// Gives the connection back as it is.
    pub fn close(self) -> Connection<S>
        ensures same { result ≡ tables.connection self.store }
        ensures mode { result.in_transaction ≡ false }
        // If the tables represent the event, a crash leaves just that.
        ensures left { HoldsOwnEvent S.Store self
            → RecoversJust (state S.Store self) (placed_of (desk_state self)) }
    {
        // A crash leaves what the tables represent: this tells the proof.
        shown_is_stored(&self.store);
        let Desk {
            store: tables,
            event: _,
            serial: _,
        } = self;
        tables.into_connection()
    }

    /// Writes a change, and keeps the event after it. What needs memory is made before the first write.
    fn write(&mut self, alloc: Global, change: &Change) -> Reply
        requires runs { IsFalse (desk_state self.old).needs_reopen }
        requires fits { Fits self.old.event change.now }
        requires takes { CanTake (version_in self.old) self.old.event change.now }
        requires low { self.old.serial < MAX_SERIAL }
        requires sound { IsSound self.old.event → IsSound (after self.old.event change.now) }

        ensures { TakesChange S.Store self.old change.now result self.new }
    {
        // A crash leaves what the tables represent: this tells the proof.
        shown_is_stored(&self.store);
        let next = event_after(alloc, &self.event, change)?;
        match self.store.write(&self.event, change, self.serial) {
            Ok(()) => {
                self.event = next;
                self.serial += 1;
                Ok(Receipt {
                    serial: self.serial,
                })
            }
            Err(why) => Err(why),
        }
    }

    /// Takes a command that is lent.
    fn take(&mut self, alloc: Global, command: &Command) -> Reply
        ensures { Submits S.Store self.old command.now result self.new }
    {
        // A crash leaves what the tables represent: this tells the proof.
        shown_is_stored(&self.store);
        if self.needs_reopen() {
            return Err(Refusal::NeedsReopen);
        }
        let change = decide(alloc, &self.event, command)?;
        if self.serial == MAX_SERIAL {
            return Err(Refusal::SerialFull);
        }
        if is_late(self.store.version(), &self.event, command) {
            return Err(Refusal::BadSetup);
        }
        steps_are_taken();
        self.write(alloc, &change)
    }

    /// Takes a command. If it is refused, and the store has no fault, all stays as it was.
    pub fn submit(&mut self, alloc: Global, command: Command) -> Reply
        ensures submits { Submits S.Store self.old command result self.new }
        // `Budget` comes exactly if the search for a round needs more than its steps, but for memory.
        ensures budget { (steps : ℕ) → result ≡ Err (Refusal.Budget steps)
            → NeedsMoreSteps self.old.event command }
        ensures searched { IsFalse (desk_state self.old).needs_reopen
            → NeedsMoreSteps self.old.event command → (result ≡ Err Refusal.Memory)
            ⊎ ((steps : ℕ) × (result ≡ Err (Refusal.Budget steps))) }
    {
        // When `Budget` comes is a law of the rules: it tells the proof.
        budget_searches();
        self.take(alloc, &command)
    }

    /// Takes commands one after the other. The replies are reserved first, so that all stays as it was if memory runs out for them.
    pub fn run(&mut self, alloc: Global, commands: Vec<Command>) -> Result<Vec<Reply>, AllocError>
        ensures ran { IfOk result (λ replies. Runs (desk_state self.old) commands.items
            replies.items
            (desk_state self.new)) }
        // Each reply is lawful at the fold of the commands that were acknowledged before it, and after a fault of the store the rest ask
        // for reopening.
        ensures lawful { IfOk result
            (λ replies. IsRun (desk_state self.old) commands.items replies.items
            (desk_state self.new)) }
        ensures untouched { IfErr result (λ _. self.new ≡ self.old) }
        // What it does to the file: a session of these commands, or nothing if there was no memory for the replies.
        ensures asked { MatchResult result (λ replies. Asks S.Store self.old
            (session_of commands.items replies.items (desk_state self.new).needs_reopen) self.new)
            (λ _. Asks S.Store self.old no_session self.new) }
    {
        // A crash leaves what the tables represent: this tells the proof.
        shown_is_stored(&self.store);
        let mut replies = Vec::with_capacity(alloc, commands.len())?;
        for command in &commands {
            let reply = self.take(alloc, command);
            let Ok(()) = replies.push(reply) else {
                unreachable!()
            };
        }
        Ok(replies)
    }
}
