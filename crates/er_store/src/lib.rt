//! An event kept in five tables of one SQLite database, of version 1 or of version 2. Each change is one transaction.
#![tactic(auto)]

ghost use Rattle.std.specs.Prelude.{◌≡◌, ◌≤◌, false};

mod creation;
mod faults;
pub mod laws;
mod loading;
mod migration;
mod reading;
mod rows;
mod slips;
mod statements;
mod tables;
mod tallies;
mod transactions;

pub use creation::{CREATE_BRACKET, CREATE_EVENT, CREATE_PAIRING, CREATE_PLAYER};
use er_event::{Change, Event, Meeting, Refusal, SlipRow, Tally};
use faults::BAD_ROW;
pub use faults::refusal_of;
use laws::sees_last_commit;
use loading::load_tables;
use migration::migrate_tables;
use slips::find_slip;
use sqlite::{Alter, Connection};
use std::alloc::Global;
use tallies::{find_meetings, find_tallies};
use transactions::{create_tables, has_event, reads_event, write_tables};

/// The tables of one event. After a fault each call but `into_connection` is refused, and touches no table.
#[derive(Drop)]
pub struct Store<S: Alter> {
    conn: Connection<S>,
    needs_reopen: bool,
    version: u8,

    ghost settled: { conn.in_transaction ≡ false },
    ghost known: { (1 ≤ version) × (version ≤ 2) },
}

impl<S: Alter> Store<S> {
    ghost use Rattle.std.specs.Prelude.{◌≡◌, ◌<◌, ◌≤◌, ℕ, false, Err, IfOk, IfErr, IsTrue, IsFalse};
    ghost use Rattle.sqlite.specs.State.{HasCleanDisk, IsUnchanged};
    ghost use Rattle.er_event.specs.declared.commands.TheConstants.{MAX_SERIAL};
    ghost use Rattle.er_event.specs.declared.refusals.Cause.TheVariants.{BadRow};
    ghost use Rattle.er_event.specs.Change.{after, Fits};
    ghost use Rattle.er_event.specs.Tallies.{tallies, meetings};
    ghost use Rattle.er_event.specs.Version.{CanTake, IsVersion, Keeps};
    ghost use Rattle.er_event.specs.declared.rows.event.TheConstants.{MOST_OLD_ROUNDS};
    ghost use Rattle.er_store.specs.Migrated.{MovesTables};
    ghost use Rattle.er_store.specs.Representing.{Represents, RepresentsIn, IsNew};
    ghost use Rattle.er_store.specs.Store as store;
    ghost use Rattle.er_store.specs.{Begins.{Creates, Adopts}};
    ghost use Rattle.er_store.specs.{Calls.{OnlyReads, Finds, OrFails, WritesChange, StopsByReadFault, StopsUnless}};
    ghost use Rattle.er_store.specs.Store.{connection, needs_reopen, store_version};
    ghost use Rattle.er_store.specs.Fault.{FaultOrDamage};
    ghost use Rattle.er_store.specs.Damage.{FindsEvent};
    ghost use Rattle.er_store.specs.Slip.{IsLawfulSlip, FindsSlipOrFails};
    ghost use Rattle.er_store.specs.Damage.{IsAtFault, IfDamaged};

    /// Makes the tables of a new event in this version, with serial 0.
    fn create_in(
        mut conn: Connection<S>,
        version: u8,
        event: &Event,
    ) -> Result<Store<S>, (Connection<S>, Refusal)>
        requires mode { conn.in_transaction ≡ false }
        requires fresh { IsNew event.now }
        requires known { IsVersion version }
        requires keeps { Keeps version event.now }
        ensures { Creates S.Store version event.now conn result }
    {
        match has_event(&mut conn) {
            Ok(true) => return Err((conn, Refusal::EventExists)),
            Ok(false) => {}
            Err(error) => return Err((conn, refusal_of(error))),
        }
        match create_tables(&mut conn, version, event) {
            Ok(()) => Ok(Store {
                conn,
                needs_reopen: false,
                version,
            }),
            Err(error) => Err((conn, refusal_of(error))),
        }
    }

    /// Makes the tables of a new event, with serial 0, in version 2. A refusal gives the connection back.
    pub fn create(conn: Connection<S>, event: &Event) -> Result<Store<S>, (Connection<S>, Refusal)>
        requires mode { conn.in_transaction ≡ false }
        requires fresh { IsNew event.now }
        ensures { Creates S.Store 2 event.now conn result }
    {
        Store::create_in(conn, 2, event)
    }

    /// Makes the tables of a new event as version 1 has them, with serial 0: those of programs that kept nine rounds at most. A refusal
    /// gives the connection back.
    pub fn create_old(
        conn: Connection<S>,
        event: &Event,
    ) -> Result<Store<S>, (Connection<S>, Refusal)>
        requires mode { conn.in_transaction ≡ false }
        requires fresh { IsNew event.now }
        requires few { event.now.rounds ≤ MOST_OLD_ROUNDS }
        ensures { Creates S.Store 1 event.now conn result }
    {
        Store::create_in(conn, 1, event)
    }

    /// A store over tables that are there, with their event and its serial. It changes no table. A refusal gives the connection back.
    pub fn adopt(
        alloc: Global,
        mut conn: Connection<S>,
    ) -> Result<(Store<S>, Event, u32), (Connection<S>, Refusal)>
        requires mode { conn.in_transaction ≡ false }
        ensures { Adopts S.Store conn result }
    {
        sees_last_commit(&conn);
        match reads_event(&mut conn) {
            Ok(true) => {}
            Ok(false) => return Err((conn, Refusal::NoEvent)),
            Err(fault) => return Err((conn, refusal_of(fault))),
        }
        match load_tables(alloc, &mut conn) {
            Ok((event, serial, version)) => {
                let needs_reopen = false;
                let store = Store {
                    conn,
                    needs_reopen,
                    version,
                };
                Ok((store, event, serial))
            }
            Err(why) => Err((conn, why)),
        }
    }

    /// Writes the change and the next serial in one transaction. The serial is the event's.
    pub fn write(&mut self, event: &Event, change: &Change, serial: u32) -> Result<(), Refusal>
        requires fits { Fits event.now change.now }
        requires takes { CanTake (store_version self.old) event.now change.now }
        requires low { serial < MAX_SERIAL }
        ensures { WritesChange S.Store event.now (after event.now change.now) serial self.old result
            self.new }
    {
        if self.needs_reopen {
            return Err(Refusal::NeedsReopen);
        }
        match write_tables(&mut self.conn, self.version, event, change, serial) {
            Ok(()) => Ok(()),
            Err(error) => {
                self.stop();
                Err(refusal_of(error))
            }
        }
    }

    /// Reads the event and its serial. It changes no table. Running out of memory and a failing store end it as any fault does; a
    /// damaged table does not.
    pub fn load(&mut self, alloc: Global) -> Result<(Event, u32), Refusal>
        ensures reads { OnlyReads S.Store FaultOrDamage self.old result self.new }
        ensures low { IfOk result (λ it. it.1 ≤ MAX_SERIAL) }

        // Of tables in either version it is the event.
        ensures found { Finds S.Store Represents (λ e s. OrFails (λ it. (it.0 ≡ e) × (it.1 ≡ s)))
            self.old result self.new }

        // Whatever the tables hold, what is found is what they show, in the version that the event's row has. If they are ours, they
        // represent it.
        ensures shows { HasCleanDisk (store.store_state S.Store self.new)
            → IfOk result (λ it. (version : ℕ) × IsVersion version
            × FindsEvent version (store.store_state S.Store self.old)
            (store.store_state S.Store self.new) it.0
            it.1) }

        // A damaged table that is named is the first at fault. So it is the event's if the event's rows can't be read, which `adopt`
        // answers by `NoEvent`.
        ensures first { HasCleanDisk (store.store_state S.Store self.new)
            → IfErr result (IfDamaged (IsAtFault (store.store_state S.Store self.old).now)) }
    {
        if self.needs_reopen {
            return Err(Refusal::NeedsReopen);
        }
        let read = load_tables(alloc, &mut self.conn);
        sees_last_commit(&self.conn);
        self.needs_reopen = matches!(read, Err(Refusal::Memory | Refusal::Store { .. }));
        let (event, serial, _version) = read?;
        Ok((event, serial))
    }

    /// Reads the slip of a match, by one statement. It changes no table. Running out of memory, a failing store and a row that the
    /// format does not allow end it as any fault does.
    pub fn slip(&mut self, alloc: Global, round: u8, table: u16) -> Result<SlipRow, Refusal>
        ensures reads { OnlyReads S.Store (StopsUnless Refusal.NoSuchMatch) self.old result
            self.new }

        // Of tables in its version it is the event's slip, or there is no such match.
        ensures found { Finds S.Store (RepresentsIn (store_version self.old))
            (λ e s. FindsSlipOrFails e round table) self.old result self.new }

        // Whatever the tables hold, it is a slip that the format allows, and that there is no such match changes nothing too.
        ensures allowed { IfOk result (λ slip. (slip.round ≡ round) × (slip.table ≡ table)
            × IsLawfulSlip slip) }
        ensures same { HasCleanDisk (store.store_state S.Store self.new)
            → IsFalse (needs_reopen self.new)
            → IsUnchanged (store.store_state S.Store self.old)
            (store.store_state S.Store self.new) }
    {
        if self.needs_reopen {
            return Err(Refusal::NeedsReopen);
        }
        let slip = find_slip(alloc, &mut self.conn, self.version, round, table);
        self.needs_reopen = matches!(slip, Err(Refusal::Memory | Refusal::Store { .. }));
        slip
    }

    /// Reads what each player's matches of the complete rounds come to, by number. It changes no table. Running out of memory, a failing
    /// store and a row that the format does not allow end it as any fault does.
    pub fn tallies(&mut self, alloc: Global) -> Result<Vec<Tally>, Refusal>
        ensures reads { OnlyReads S.Store StopsByReadFault self.old result self.new }
        // Of tables in its version these are the event's tallies.
        ensures found { Finds S.Store (RepresentsIn (store_version self.old))
            (λ e s. OrFails (λ list. list.items ≡ tallies e)) self.old result self.new }
    {
        if self.needs_reopen {
            return Err(Refusal::NeedsReopen);
        }
        let read = find_tallies(alloc, &mut self.conn, self.version);
        self.needs_reopen = read.is_err();
        read
    }

    /// Reads who met whom in the complete rounds, by round and table, with what the matches of the two come to. It changes no table. Its
    /// faults are those of `tallies`.
    pub fn meetings(&mut self, alloc: Global) -> Result<Vec<Meeting>, Refusal>
        ensures reads { OnlyReads S.Store StopsByReadFault self.old result self.new }
        // Of tables in either version these are the event's meetings.
        ensures found { Finds S.Store Represents (λ e s. OrFails (λ list. list.items ≡ meetings e))
            self.old result self.new }
    {
        if self.needs_reopen {
            return Err(Refusal::NeedsReopen);
        }
        let read = find_meetings(alloc, &mut self.conn);
        self.needs_reopen = read.is_err();
        read
    }

    /// Moves the tables of the event to version 2, in one transaction. Tables of version 2 it leaves as they are, and takes no memory. The
    /// serial is the event's, and stays.
    pub fn migrate(&mut self, event: &Event, serial: u32) -> Result<(), Refusal>
        ensures { MovesTables S.Store event.now serial self.old result self.new }
    {
        if self.needs_reopen {
            return Err(Refusal::NeedsReopen);
        }
        if self.version == 2 {
            return Ok(());
        }
        match migrate_tables(&mut self.conn, event) {
            Ok(()) => {
                self.version = 2;
                Ok(())
            }
            Err(error) => {
                self.stop();
                Err(refusal_of(error))
            }
        }
    }

    /// The version in which the tables are kept: 1 or 2. A store that a fault has ended tells it too.
    pub fn version(&self) -> u8
        ensures value { result ≡ store_version self.now }
        ensures known { IsVersion result }
    {
        self.version
    }

    /// Whether a fault has ended it.
    pub fn needs_reopen(&self) -> bool
        ensures { result ≡ needs_reopen self.now }
    {
        self.needs_reopen
    }

    /// Ends it as a fault does.
    fn stop(&mut self)
        ensures needs_reopen { IsTrue (needs_reopen self.new) }
        ensures same { connection self.new ≡ connection self.old }
        ensures version { store_version self.new ≡ store_version self.old }
    {
        self.needs_reopen = true;
    }

    /// Refuses rows that were read and are of no event, and ends the store.
    pub fn refuse_rows(&mut self) -> Refusal
        ensures refusal { result ≡ Refusal.Store BadRow }
        ensures needs_reopen { IsTrue (needs_reopen self.new) }
        ensures same { connection self.new ≡ connection self.old }
        ensures version { store_version self.new ≡ store_version self.old }
    {
        self.stop();
        BAD_ROW
    }

    /// Gives the connection back as it is.
    pub fn into_connection(self) -> Connection<S>
        ensures same { result ≡ connection self }
        ensures mode { result.in_transaction ≡ false }
    {
        let Store {
            conn,
            needs_reopen: _,
            version: _,
        } = self;
        conn
    }
}
