// The opening of a world.
ghost use Rattle.std.specs.Prelude.{◌≡◌, ◌≤◌, ℕ, [], false, None, MatchResult, IfOk, IfErr, OnOk, OnErr};
ghost use Rattle.sq_schema.specs.declared.root.TheConstants.{ROOT_END};
ghost use Rattle.sq_schema.specs.Prelude.{rows_in};

use crate::given::{moves, moves_and_table, take_over};
use crate::opening_fault::OpeningFault;
use crate::recon::Recon;
use sq_plan::Plan;
use sq_schema::{MAX_LOG, MAX_NOTE, Root, Row, RowKey, Schema, Table, TxnFault};
use std::alloc::{AllocError, Global};
use std::marker::Model;
use std::mem;

/// The least value of [`Config::limit`]: bytes of families in a chunk.
pub const MIN_LIMIT: u64 = 64;

/// The greatest value of [`Config::limit`]: bytes of families in a chunk.
pub const MAX_LIMIT: u64 = 1_048_576;

/// The greatest value of [`Config::capacity`]: chunks in the queue of a link.
pub const MAX_CAPACITY: u64 = 64;

/// The most transactions that wait at a partition.
pub const MAX_WAITING: usize = 1024;

/// The most transactions that a log holds in a run that doesn't ask for more.
pub const LOG_LIMIT: u64 = 4096;

/// The sizes that a reconfiguration is run with.
#[derive(Clone, Copy, Debug, PartialEq, Eq)]
pub struct Config {
    /// The most root keys that a leaf covers, from 1 to [`MAX_WIDTH`].
    pub width: u64,
    /// The most bytes of families that a chunk holds, unless it holds a single family, from
    /// [`MIN_LIMIT`] to [`MAX_LIMIT`].
    pub limit: u64,
    /// The most chunks that the queue of a link holds, from 1 to [`MAX_CAPACITY`].
    pub capacity: u64,
    /// The most transactions that the log of a root key holds. A transaction after them is refused.
    pub log_limit: u64,
}

/// An opening row with unchecked numbers: [`Opening::new`] and [`Opening::take_row`] refuse wrong
/// ones.
#[derive(Debug, Drop)]
pub struct GivenRow {
    pub root: u64,
    /// The table, from 0.
    pub table: u8,
    /// The sub key within the table.
    pub sub: u32,
    pub number: i64,
    pub note: Vec<u8>,
}

/// What a world opens with: the plans, what moves between them, the sizes, and the opening rows. To
/// a contract it is an `OpeningValue`.
#[derive(Debug, Drop)]
pub struct Opening {
    parts: OpeningParts,
}

/// The parts of an opening.
#[derive(Debug, Drop)]
pub struct OpeningParts {
    /// The tables of the database.
    pub schema: Schema,
    /// The plan before the move.
    pub old: Plan,
    /// The plan after the move.
    pub new: Plan,
    /// What moves between the plans.
    pub recon: Recon,
    /// The sizes.
    pub config: Config,
    /// The opening rows.
    pub table: Table,
}

/// Why an opening was refused, with what it was to be made of.
#[derive(Debug, Drop)]
pub struct RefusedOpening {
    pub fault: OpeningFault,
    /// The plan before the move, as given.
    pub old: Plan,
    /// The plan after the move, as given.
    pub new: Plan,
    /// The rows, as given.
    pub rows: Vec<GivenRow>,
}

/// Why an opening without rows was refused, with the plans that it was to be made of.
#[derive(Debug, Drop)]
pub struct RefusedPlans {
    pub fault: OpeningFault,
    /// The plan before the move, as given.
    pub old: Plan,
    /// The plan after the move, as given.
    pub new: Plan,
}

impl Model for Opening {
    ghost use Rattle.sq_moves.specs.OpeningValue.{OpeningValue, opening_of};
    ghost use Rattle.sq_moves.specs.SetUp.{IsSetUp};

    ghost Value = { OpeningValue };

    ghost view = { λ o. opening_of o.parts };

    ghost invariant = { λ o. IsSetUp (opening_of o.parts) };
}

impl Opening {
    ghost use Rattle.sq_moves.specs.declared.opening.TheConstants.{MIN_LIMIT, MAX_LIMIT};
    ghost use Rattle.sq_moves.specs.OpeningValue.{unlimited, limited};
    ghost use Rattle.sq_moves.specs.SetUp.{IsSetUp};
    ghost use Rattle.sq_moves.specs.Between.{recon_of};
    ghost use Rattle.sq_moves.specs.Given.{IsOpeningOf, value_of, with_one};
    ghost use Rattle.sq_moves.specs.Refused.{config_fault, given_fault, opening_fault, MayRefuse, MayRefuseOpening};

    /// Creates the opening of two plans with these sizes and rows. If it is refused, the plans and
    /// the rows are returned as they were, with the first of these faults: those of the plans and
    /// the width of a leaf, as in [`Recon::fault`]; the bytes of a chunk; the chunks of a queue;
    /// and then for each row its root key, table, sub key and note, a row that repeats one, and a
    /// row without its root row. The fault of a row has the row's number. [`OpeningFault::Memory`]
    /// may replace any answer about the rows, except a fault of the first row; it never replaces a
    /// fault of the plans and sizes.
    pub fn new(
        alloc: Global,
        schema: Schema,
        old: Plan,
        new: Plan,
        config: Config,
        rows: Vec<GivenRow>,
    ) -> Result<Opening, RefusedOpening>
        ensures fault { MatchResult result
            (λ _. opening_fault schema old new config rows.items ≡ None)
            (λ refused. MayRefuseOpening schema old new config rows.items refused.fault) }
        ensures ok { IfOk result (IsOpeningOf schema old new config rows.items) }
        ensures set_up { IfOk result IsSetUp }
        ensures old_returned { IfErr result (λ refused. refused.old ≡ old) }
        ensures new_returned { IfErr result (λ refused. refused.new ≡ new) }
        ensures rows_returned { IfErr result (λ refused. refused.rows.items ≡ rows.items) }
    {
        match moves_and_table(alloc, schema.tables(), &old, &new, config, &rows) {
            Ok((recon, table)) => Ok(Opening {
                parts: OpeningParts {
                    schema,
                    old,
                    new,
                    recon,
                    config,
                    table,
                },
            }),
            Err(fault) => Err(RefusedOpening {
                fault,
                old,
                new,
                rows,
            }),
        }
    }

    /// Creates the opening of two plans with these sizes, without rows: [`Opening::take_row`] adds
    /// them one by one. If it is refused, the plans are returned as they were, with the first fault
    /// of the plans and sizes, as in [`Opening::new`]; [`OpeningFault::Memory`] never replaces one
    /// of these.
    pub fn without_rows(
        alloc: Global,
        schema: Schema,
        old: Plan,
        new: Plan,
        config: Config,
    ) -> Result<Opening, RefusedPlans>
        ensures fault { let fault = config_fault old new config in
            MatchResult result (λ _. fault ≡ None)
            (λ refused. MayRefuse fault fault refused.fault) }
        ensures ok { IfOk result (IsOpeningOf schema old new config []) }
        ensures set_up { IfOk result IsSetUp }
        ensures old_returned { IfErr result (λ refused. refused.old ≡ old) }
        ensures new_returned { IfErr result (λ refused. refused.new ≡ new) }
    {
        match moves(alloc, &old, &new, config) {
            Ok(recon) => Ok(Opening {
                parts: OpeningParts {
                    schema,
                    old,
                    new,
                    recon,
                    config,
                    table: Table::new(alloc),
                },
            }),
            Err(fault) => Err(RefusedPlans { fault, old, new }),
        }
    }

    /// Adds one more opening row, with its note uncopied; a fault names it by the number `at`. If
    /// it is refused, nothing changes and the row is returned, with its first fault as in
    /// [`Opening::new`]; [`OpeningFault::Memory`] never replaces one of these.
    pub fn take_row(&mut self, at: usize, given: GivenRow) -> Result<(), (OpeningFault, GivenRow)>
        ensures fault { let fault = given_fault self.old.tables (rows_in self.old.table) at
            (value_of given) in
            MatchResult result (λ _. fault ≡ None) (λ refused. MayRefuse fault fault refused.0) }
        ensures ok { OnOk result ((root : ℕ)
            → rows_in self.new.table root ≡ with_one (rows_in self.old.table)
            (value_of given) root) }
        ensures kept { self.new ≡ record self.old { table = self.new.table } }
        ensures err { OnErr result (self.new ≡ self.old) }
        ensures row_returned { IfErr result (λ refused. value_of refused.1 ≡ value_of given) }
        ensures set_up { IsSetUp self.new }
    {
        let tables = self.parts.schema.tables();
        let taken = take_over(&mut self.parts.table, tables, at, given);
        // For the proof alone: a table has rising root keys, each with some rows.
        let _rows = self.parts.table.iter();
        taken
    }

    /// Returns the tables of the database.
    pub fn schema(&self) -> Schema
        ensures { result ≡ self.now.tables }
    {
        self.parts.schema
    }

    /// Returns the plan before the move.
    pub fn old_plan(&self) -> &Plan
        ensures plan { result.now ≡ self.now.old }
        ensures set_up { IsSetUp self.now }
    {
        &self.parts.old
    }

    /// Returns the plan after the move.
    pub fn new_plan(&self) -> &Plan
        ensures plan { result.now ≡ self.now.new }
        ensures set_up { IsSetUp self.now }
    {
        &self.parts.new
    }

    /// Returns what moves between the plans.
    pub fn recon(&self) -> &Recon
        ensures recon { result.now ≡ self.now.recon }
        ensures set_up { IsSetUp self.now }
    {
        &self.parts.recon
    }

    /// Returns the sizes.
    pub fn config(&self) -> Config
        ensures config { result ≡ self.now.config }
        ensures set_up { IsSetUp self.now }
    {
        self.parts.config
    }

    /// Returns the opening rows.
    pub fn table(&self) -> &Table
        ensures table { result.now ≡ self.now.table }
        ensures set_up { IsSetUp self.now }
    {
        &self.parts.table
    }

    /// Returns the opening with the rows of `table` in place of its own.
    pub fn with_table(self, table: Table) -> Opening
        requires { (root : ℕ) → ROOT_END ≤ root → rows_in table root ≡ [] }
        ensures opening { result ≡ record self { table = table } }
        ensures set_up { IsSetUp result }
    {
        // For the proof alone: a table has rising root keys, each with some rows.
        let _rows = table.iter();
        Opening {
            parts: OpeningParts {
                table,
                ..self.parts
            },
        }
    }

    /// Returns the opening with logs that hold as many transactions as can be counted.
    pub fn without_log_limit(self) -> Opening
        ensures opening { result ≡ unlimited self }
        ensures set_up { IsSetUp result }
    {
        let config = Config {
            log_limit: MAX_LOG,
            ..self.parts.config
        };
        Opening {
            parts: OpeningParts {
                config,
                ..self.parts
            },
        }
    }

    /// Sets the most bytes of families that a chunk holds, unless it holds a single family.
    pub fn set_limit(&mut self, limit: u64)
        requires some { MIN_LIMIT ≤ limit }
        requires small { limit ≤ MAX_LIMIT }
        ensures opening { self.new ≡ limited limit self.old }
        ensures set_up { IsSetUp self.new }
    {
        self.parts.config.limit = limit;
    }

    /// Goes on to the next move: from the plan after this move to `new`, with the same sizes and
    /// rows. If it is refused, nothing changes: for the first fault of the plans, as in
    /// [`Recon::fault`], or for [`OpeningFault::Memory`].
    pub fn go_onward(&mut self, alloc: Global, new: Plan) -> Result<(), OpeningFault>
        ensures fault { let fault = config_fault self.old.new new self.old.config in
            MatchResult result (λ _. fault ≡ None) (λ refused. MayRefuse fault fault refused) }
        ensures ok { OnOk result (self.new ≡ record self.old {
          old = self.old.new;
          new = new;
          recon = recon_of self.old.new new self.old.config.width;
        }) }
        ensures set_up { IsSetUp self.new }
        ensures unchanged { OnErr result (self.new ≡ self.old) }
    {
        // For the proof alone: a table has rising root keys, each with some rows.
        let _rows = self.parts.table.iter();
        let recon = moves(alloc, &self.parts.new, &new, self.parts.config)?;
        self.parts.recon = recon;
        self.parts.old = mem::replace(&mut self.parts.new, new);
        Ok(())
    }

    /// Returns the parts of the opening, uncopied.
    pub fn into_parts(self) -> OpeningParts
        ensures schema { result.schema ≡ self.tables }
        ensures old { result.old ≡ self.old }
        ensures new { result.new ≡ self.new }
        ensures recon { result.recon ≡ self.recon }
        ensures config { result.config ≡ self.config }
        ensures table { result.table ≡ self.table }
        ensures set_up { IsSetUp self }
    {
        self.parts
    }
}

impl GivenRow {
    ghost use Rattle.std.specs.Prelude.{Some};
    ghost use Rattle.sq_moves.specs.Given.{key_of, row_of, value_of};
    ghost use Rattle.sq_moves.specs.Refused.{shape_fault};

    /// Returns its table and sub key.
    pub(crate) fn key(&self) -> RowKey
        ensures { result ≡ key_of self.now }
    {
        RowKey {
            table: self.table,
            sub: self.sub,
        }
    }

    /// Returns its root key. Refused for the first of these: the root key, the table if it isn't
    /// below `tables`, the sub key, and the note.
    pub(crate) fn root(&self, tables: u8) -> Result<Root, TxnFault>
        ensures { MatchResult result
            (λ root. (shape_fault tables (value_of self.now) ≡ None) × (root ≡ self.now.root))
            (λ fault. shape_fault tables (value_of self.now) ≡ Some fault) }
    {
        let Some(root) = Root::new(self.root) else {
            return Err(TxnFault::BadRoot);
        };
        if self.table >= tables {
            return Err(TxnFault::BadTable);
        }
        if self.table == 0 && self.sub != 0 {
            return Err(TxnFault::BadSub);
        }
        if self.note.len() > MAX_NOTE {
            return Err(TxnFault::BadNote);
        }
        Ok(root)
    }

    // Returns the row, with its note uncopied.
    pub(crate) fn into_row(self) -> Row
        ensures { result ≡ row_of self }
    {
        Row::new(self.number, self.note)
    }

    // Returns `row`, of `root` and `key`, in the form in which it was given.
    pub(crate) fn of(root: Root, key: RowKey, row: Row) -> GivenRow
        ensures { value_of result ≡ record { root = root; key = key; row = row } }
    {
        GivenRow {
            root: root.number(),
            table: key.table,
            sub: key.sub,
            number: row.number(),
            note: row.into_note(),
        }
    }

    /// Returns the row, with a copy of its note.
    pub(crate) fn row(&self) -> Result<Row, AllocError>
        ensures { IfOk result (λ row. row ≡ row_of self.now) }
    {
        Ok(Row::new(self.number, self.note.clone()?))
    }
}
