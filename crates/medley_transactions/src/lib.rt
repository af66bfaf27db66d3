//! Transactions over maps and queues that threads share without locks. This crate adds nothing. It
//! names in one place what a program needs of the crates below.
//!
//! A **body** is the code of a transaction: a type with the trait [`Body`], which makes the eight
//! operations of [`TxCalls`] on maps and queues. Its ghost members tell contracts which acts it
//! does with which reply. A body must be safe for every reply, since only an attempt that commits
//! is known to have seen right ones.
//!
//! An **engine** is a store that runs bodies: [`Store`], which threads share, or [`PlainStore`],
//! for one thread. Code that is generic over [`Engine`] runs over either.
//!
//! `Store::open` takes a [`Shape`], which says how many lanes, nodes, attempts, maps and queues
//! there are, and the [`Contents`] to begin with. It returns the store and a **pass** that holds
//! all lanes. A lane is one caller's share of the store. These calls use a pass:
//!
//! - `split` gives half of the lanes to a new pass, which another thread may use.
//! - `join` puts two passes together.
//! - `attempt` runs a body once. Either it took effect as a whole (`Committed`, with the body's
//!   reply), or it had no effect (`Stopped`, with the cause). After a conflict the body may be run
//!   again, and [`attempt_until_committed`] does so.
//! - `renew` ends the engine, and opens one on the same contents, with all nodes and attempts
//!   again.
//! - `contents` ends the engine, and returns what it holds. `Store::close` does the same.
//!
//! [`run_lines`] makes these calls for most programs. The trait [`Lines`] says which bodies each
//! caller has, its **lines**; [`LinesByCaller`] has them in lists. The call plays all lines of all
//! callers, in threads, each once, and in **rounds**: in each the pass is split, every caller makes
//! some attempts, and the pass is joined again. It runs a line again after a conflict, renews the
//! engine when it must, closes it, and returns the replies by caller and line. It requires the laws
//! of the bodies ([`LawfulBody`]): what each keeps, how many words and nodes it needs at most, and
//! how many nodes more the contents need after it. [`run_many`] is for lines whose laws go by what
//! was played before ([`LawfulLines`]).
//!
//! Contracts speak of **fronts**. A front is a pass as it stood. It has the entries that the pass
//! had seen, one for each transaction that became ready, with its tag and its acts, and what is
//! known of their fates. It is legal: each reply of a committed entry is the one that it has if the
//! committed entries run one after another, in this order. The contents at the end are what they
//! leave. `run_lines` says so of a whole run: one thread that does the committed lines one after
//! another gets the same replies, and leaves the same contents. The crate `example_bank` is an
//! example.
//!
//! Clauses cite definitions by the crate in which they stand, as `Rattle.md_history.specs.State`.
//! So the line in `crates.txt` of a crate that has clauses names this crate, and each crate of
//! which they cite a definition.
#![tactic(auto)]

/// The store that threads share, its passes, and why it can't be opened. A pass holds some of the
/// store's lanes, for one thread to use.
pub use md_store::{OpenFault, Store, StorePass};

/// A transaction that plain code makes call by call, and a function that lends to a proof what its
/// end tells, and does nothing when it runs.
pub use md_store::{StoreTxn, transactions_end};

/// How many base nodes contents need.
pub use md_store_layout::needed;

/// How many lanes, nodes, attempts, maps, buckets and queues a store has, and which of the numbers
/// is out of its range.
pub use md_words::{Shape, ShapeFault};

/// The ranges of a [`Shape`], and how many words a transaction may read and write.
pub use md_words::limits;

/// The store for one thread, and its pass.
pub use md_history::{PlainPass, PlainStore};

/// What every store offers. The two functions lend its laws on passes to a proof, and do nothing
/// when they run.
pub use md_history::{Engine, fresh_is_empty, pass_is_legal};

/// The code of a transaction, and the calls that it makes.
pub use md_history::{Body, TxCalls};

/// How an attempt ends: with a reply, or by a stop. A stop is a conflict, a limit that was met, or
/// that memory ran out.
pub use md_history::{Attempt, Limit, Shown, Stop};

/// Ordered maps and queues: what a store begins with, and what it leaves.
pub use md_history::Contents;

/// Operations, their replies, and lists of both. A line is the first values of a queue.
pub use md_history::{Act, Acts, Line, MAX_LINE, Op, Reply};

/// For contracts: the entries of a history with their fates, and a pass as it stood.
pub use md_history::{Entry, Fate, Front};

/// The lines of callers, as lists or by a trait, and the laws of their bodies; a call that plays
/// all lines in threads, and its result: the replies by caller and line, the contents and the
/// fronts.
pub use md_many::{LawfulBody, Lines, LinesByCaller, Many, run_lines};

/// Lines whose laws go by which of them were played before, and the call that plays them.
pub use md_many::{LawfulLines, run_many};

/// What is called around each attempt at a line, and a gate that does nothing.
pub use md_many::{FreeGate, Gate};

/// Rounds whose replies go to a keeper of the caller's own, in lists of its own kind.
pub use md_many::{Keeper, OpenRounds, Play, ReplyList, Rounds, play_open_rounds, play_rounds};

/// The calls that play lines of one caller by a pass: one attempt, or attempts until the turn ends.
pub use md_many::{End, MOST_CONFLICTS, Turn, attempt_line, attempt_lines};

/// Attempts at one body until it is committed.
pub use md_many::attempt_until_committed;

/// The tag of a caller's line.
pub use md_many::line_tag;
