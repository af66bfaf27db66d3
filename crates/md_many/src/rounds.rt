//! Rounds of callers, over any engine and any lines.

ghost use Rattle.std.specs.Prelude.{◌≡◌, ◌<◌, ◌≤◌, ◌+◌, ◌^◌, ◌↔◌, [], ℕ, length, map, replicate, true};
ghost use Rattle.std.specs.Prelude.{false, IfOk, IfSome, IfNone, OnOk};
ghost use Rattle.std.specs.List.{list_any};
ghost use Rattle.md_history.specs.Engine.{empty_front};
ghost use Rattle.md_many_attempts.specs.ByCaller.{at_caller, lines_of};
ghost use Rattle.md_many_attempts.specs.Meaning.{meaning_of};
ghost use Rattle.md_many_attempts.specs.Turns.{CanPlayTurn, HoldsAsBefore, PlaysTurn, PlaysEnough};
ghost use Rattle.md_many.specs.Tags.{IsInterleaving};
ghost use Rattle.md_many.specs.Laws.{AreLawful, CanKeepAll, law_of};
ghost use Rattle.md_many.specs.Plan.{plan_of};
ghost use Rattle.md_many.specs.Rounds.{AreWithin, is_used_up};
ghost use Rattle.md_many.specs.Course.{CanPlay, IsInCourse, IsLone, HasLineLeft, HasNoMoreLeft};
ghost use Rattle.md_many.specs.Closed.{ClosesTo, HoldsAllLanes};
ghost use Rattle.md_many.specs.Played.{EachLineOnce, IsToldOfEach, committed_of, tags_of};
ghost use Rattle.md_many.specs.Played.{fronts_and_left, left_after, rounds_left};

use crate::closing::OpenRounds;
use crate::course::Course;
use crate::keepers::Keeper;
use crate::keeping::{keep_lines, keep_turns};
use crate::laws::LawfulLines;
use crate::playing::Play;
use crate::turns::{Shared, Turns, play_turns};
use md_history::{Body, Engine, fresh_is_empty, pass_is_legal};
use md_many_attempts::{End, Gate, Lines, Played, ReplyList, Turn, attempt_lines};
use std::alloc::{AllocError, Global};
use std::thread::Threads;

// The most attempts in a round of a caller that alone has lines left. Their replies are put in one
// vector.
const LONE_ATTEMPTS: u32 = 1_024;

// The lowest caller that has a line left.
fn next_caller<L: Lines>(lines: &L, done: &[u32]) -> Option<u32>
    requires few { length done.now < 2 ^ 32 }
    requires within { AreWithin (L.line_count lines.now) 0 done.now }
    ensures left { IfSome result (HasLineLeft (L.line_count lines.now) done.now) }
    ensures none { IfNone result ((caller : ℕ) → 1 ≤ caller → caller ≤ length done.now
        → at_caller 0 done.now caller ≡ L.line_count lines.now caller) }
{
    let mut caller = 0;
    'callers: for played in done {
        caller += 1;
        if *played < lines.len(caller) {
            return Some(caller);
        }
    }
    None
}

// Whether of several callers no later one has a line left: this one is the lowest that has.
fn is_lone<L: Lines>(lines: &L, done: &[u32], caller: u32) -> bool
    requires few { length done.now < 2 ^ 32 }
    requires within { AreWithin (L.line_count lines.now) 0 done.now }
    ensures { (result ≡ true) ↔ IsLone (L.line_count lines.now) done.now caller }
{
    let callers = done.len() as u32;
    'others: for before in caller..callers {
        if done[before as usize] < lines.len(before + 1) {
            return false;
        }
    }
    callers > 1
}

// The most attempts at the first lines of a round.
fn first_attempts(lone: bool) -> u32
    ensures { 1 ≤ result }
{
    if lone { LONE_ATTEMPTS } else { 1 }
}

// Renews the engine, if it is worn.
fn renewed<R, E: Engine, L: LawfulLines, G: Gate, K: Keeper<<L::B as Body>::Reply>>(
    play: &Play<'_, R, L, G>,
    course: Course<E>,
    keeper: &K,
) -> Result<Course<E>, AllocError>
    requires course { IsInCourse E.Engine
        (plan_of L.B.Body L.Lines L.LawfulLines.own G.Gate play.now) (K.keeps keeper.now) course }
    ensures course { IfOk result (IsInCourse E.Engine
        (plan_of L.B.Body L.Lines L.LawfulLines.own G.Gate play.now) (K.keeps keeper.now)) }
    ensures done { IfOk result (λ c. c.done ≡ course.done) }
    ensures fresh { course.worn ≡ true → IfOk result (λ c. E.fresh c.engine c.pass) }
    ensures empty { course.worn ≡ true → IfOk result (λ c.
        E.front c.pass ≡ empty_front (E.lanes c.engine)) }
    ensures fronts { IfOk result (λ c. length c.fronts.items ≤ length course.fronts.items + 1) }
    ensures kept { course.worn ≡ false → IfOk result (λ c. c.fronts ≡ course.fronts) }
{
    let _ = play;
    let _ = keeper;
    if !course.worn {
        return Ok(course);
    }
    let Course {
        engine,
        pass,
        mut fronts,
        done,
        worn: _,
    } = course;
    pass_is_legal(&engine, &pass);
    let (engine, pass, front) = engine.renew(pass)?;
    fresh_is_empty(&engine, &pass);
    fronts.push(front)?;
    Ok(Course {
        engine,
        pass,
        fronts,
        done,
        worn: false,
    })
}

// A list of some replies.
fn list_of<R: Drop, T: ReplyList<R>>(alloc: Global, replies: Vec<R>) -> Result<T, AllocError>
    ensures { IfOk result (λ list. T.listed list ≡ replies.items) }
{
    let mut list = T::new(alloc);
    list.append(replies)?;
    Ok(list)
}

// Plays a caller's next lines, with so many attempts as the turn has, and lists their replies.
fn play_list<E: Engine, L: Lines, G: Gate, T: ReplyList<<L::B as Body>::Reply>>(
    alloc: Global,
    engine: &E,
    pass: &mut E::Pass,
    lines: &L,
    turn: Turn,
    gate: &G,
) -> Result<T, AllocError>
    requires of { E.of engine.now pass.old }
    requires turn { CanPlayTurn (meaning_of L.B.Body L.Lines lines.now) (E.start engine.now) turn }
    ensures pass { HoldsAsBefore E.Engine engine.now pass.old pass.new }
    ensures turn { IfOk result (λ list. PlaysTurn E.Engine (meaning_of L.B.Body L.Lines lines.now)
        (G.after_called gate.now) turn pass.old pass.new (T.listed list)) }
    ensures enough { IfOk result (λ list. PlaysEnough E.Engine engine.now
        (meaning_of L.B.Body L.Lines lines.now) turn pass.old (length (T.listed list))) }
{
    let mut replies = Vec::with_capacity(alloc, turn.attempts as usize)?;
    attempt_lines(engine, pass, lines, turn, gate, &mut replies)?;
    list_of(alloc, replies)
}

// The lowest caller's next line is played by the pass of all lanes, which meets no conflict; or its
// next lines, if it alone has some left.
fn play_first<R, E: Engine, L: LawfulLines, G: Gate, K: Keeper<<L::B as Body>::Reply>>(
    play: &Play<'_, R, L, G>,
    course: &mut Course<E>,
    caller: u32,
    lone: bool,
    keeper: &mut K,
) -> Result<(), AllocError>
    requires course { IsInCourse E.Engine
        (plan_of L.B.Body L.Lines L.LawfulLines.own G.Gate play.now) (K.keeps keeper.old) course.old }
    requires keeper { CanKeepAll (L.suits play.now.lines.now) (K.can_keep keeper.old) }
    requires left { HasLineLeft (L.line_count play.now.lines.now) course.old.done.items caller }
    ensures course { OnOk result (IsInCourse E.Engine
        (plan_of L.B.Body L.Lines L.LawfulLines.own G.Gate play.now) (K.keeps keeper.new) course.new) }
    ensures keeper { CanKeepAll (L.suits play.now.lines.now) (K.can_keep keeper.new) }
    ensures no_more { OnOk result (HasNoMoreLeft (L.line_count play.now.lines.now)
        course.old.done.items course.new.done.items) }
    ensures played { course.new.worn ≡ false
        → OnOk result (left_after (L.line_count play.now.lines.now) 0 course.new.done.items
        < left_after (L.line_count play.now.lines.now) 0 course.old.done.items) }
    ensures fresh { E.fresh course.old.engine course.old.pass
        → E.front course.old.pass ≡ empty_front (E.lanes course.old.engine)
        → OnOk result (course.new.worn ≡ false) }
    ensures fronts { course.new.fronts ≡ course.old.fronts }
{
    let turn = Turn {
        caller,
        done: course.done[caller as usize - 1],
        attempts: first_attempts(lone),
    };
    let Play {
        alloc,
        lines,
        gate,
        ..
    } = *play;
    pass_is_legal(&course.engine, &course.pass);
    let list: K::List = play_list(alloc, &course.engine, &mut course.pass, lines, turn, gate)?;
    pass_is_legal(&course.engine, &course.pass);
    course.worn = list.len() == 0;
    keep_lines(keeper, &mut course.done, caller, list)
}

// Whether a turn ended by something that the engine has no more of.
fn uses_up(end: End) -> bool
    ensures { result ≡ is_used_up end }
{
    match end {
        End::Lines | End::Conflicts => false,
        End::Attempts | End::Limit(_) => true,
    }
}

// Whether one of several turns did.
fn wears<T>(turns: &[Played<T>]) -> bool
    ensures { result ≡ list_any (λ turn. is_used_up turn.end) turns.now }
{
    turns.iter().any(|turn| uses_up(turn.end))
}

// All callers play a turn side by side, each on a lane of its own.
fn play_sides<R, E, L, G, K>(
    play: &Play<'_, R, L, G>,
    course: Course<E>,
    keeper: &mut K,
) -> Result<Course<E>, AllocError>
where
    R: Threads + Sync,
    E: Engine,
    L: LawfulLines,
    L::B: Send,
    <L::B as Body>::Reply: Send,
    G: Gate + Sync,
    K: Keeper<<L::B as Body>::Reply>,
    K::List: Send,
    requires course { IsInCourse E.Engine
        (plan_of L.B.Body L.Lines L.LawfulLines.own G.Gate play.now) (K.keeps keeper.old) course }
    requires keeper { CanKeepAll (L.suits play.now.lines.now) (K.can_keep keeper.old) }
    requires callers { length course.done.items < 2 ^ 32 }
    ensures course { IfOk result (IsInCourse E.Engine
        (plan_of L.B.Body L.Lines L.LawfulLines.own G.Gate play.now) (K.keeps keeper.new)) }
    ensures keeper { CanKeepAll (L.suits play.now.lines.now) (K.can_keep keeper.new) }
    ensures no_more { IfOk result (λ c. HasNoMoreLeft (L.line_count play.now.lines.now)
        course.done.items c.done.items) }
    ensures fronts { IfOk result (λ c. c.fronts ≡ course.fronts) }
{
    let Course {
        engine,
        pass,
        fronts,
        mut done,
        worn: _,
    } = course;
    pass_is_legal(&engine, &pass);
    let shared = Shared {
        rt: play.rt,
        alloc: play.alloc,
        engine: &engine,
        lines: play.lines,
        gate: play.gate,
        attempts: play.attempts,
    };
    let turns = play_turns(shared, pass, 0, &done)?;
    let Turns { pass, played } = turns;
    pass_is_legal(&engine, &pass);
    let worn = wears(&played);
    keep_turns(keeper, &mut done, played)?;
    Ok(Course {
        engine,
        pass,
        fronts,
        done,
        worn,
    })
}

// A round: the engine is renewed if it is worn, the lowest caller's next line is played first, and
// then all callers play a turn side by side. If no other caller has a line left, the lowest plays a
// batch of lines first, and nobody plays a turn. It leaves fewer lines, or as many and a worn engine.
fn play_round<R, E, L, G, K>(
    play: &Play<'_, R, L, G>,
    course: Course<E>,
    caller: u32,
    keeper: &mut K,
) -> Result<Course<E>, AllocError>
where
    R: Threads + Sync,
    E: Engine,
    L: LawfulLines,
    L::B: Send,
    <L::B as Body>::Reply: Send,
    G: Gate + Sync,
    K: Keeper<<L::B as Body>::Reply>,
    K::List: Send,
    requires course { IsInCourse E.Engine
        (plan_of L.B.Body L.Lines L.LawfulLines.own G.Gate play.now) (K.keeps keeper.old) course }
    requires keeper { CanKeepAll (L.suits play.now.lines.now) (K.can_keep keeper.old) }
    requires callers { length course.done.items < 2 ^ 32 }
    requires left { HasLineLeft (L.line_count play.now.lines.now) course.done.items caller }
    ensures course { IfOk result (IsInCourse E.Engine
        (plan_of L.B.Body L.Lines L.LawfulLines.own G.Gate play.now) (K.keeps keeper.new)) }
    ensures keeper { CanKeepAll (L.suits play.now.lines.now) (K.can_keep keeper.new) }
    ensures callers { IfOk result (λ c. length c.done.items ≡ length course.done.items) }
    ensures less { IfOk result (λ c. rounds_left (L.line_count play.now.lines.now) c.done.items c.worn
        < rounds_left (L.line_count play.now.lines.now) course.done.items course.worn) }
    ensures fronts { IfOk result (λ c.
        fronts_and_left (L.line_count play.now.lines.now) (length c.fronts.items) c.done.items
        ≤ fronts_and_left (L.line_count play.now.lines.now) (length course.fronts.items)
        course.done.items) }
{
    let lone = is_lone(play.lines, &course.done, caller);
    let mut course = renewed(play, course, keeper)?;
    play_first(play, &mut course, caller, lone, keeper)?;
    if course.worn {
        return Ok(course);
    }
    if lone {
        return Ok(course);
    }
    play_sides(play, course, keeper)
}

// As many zeros as there are callers.
fn none_done(alloc: Global, callers: u32) -> Result<Vec<u32>, AllocError>
    ensures { IfOk result (λ done. done.items ≡ replicate callers 0) }
{
    vec![in alloc; 0; callers as usize]
}

/// Plays all lines of all callers over an engine, in rounds. `OpenRounds::close` then closes the
/// engine. The pass is fresh and holds all lanes, one for each caller. The lines keep their laws
/// (`AreLawful`), the engine can run each of them (`CanRun`), and the keeper can keep each reply that
/// suits its line.
///
/// A round begins with its first line: the pass of all lanes plays the next line of the lowest
/// caller that has one. If this line meets a limit, the round ends. Otherwise the pass is split,
/// each caller plays a turn in a thread, and the pass is joined again. The keeper gets the reply of
/// the first line before the turns, and the replies of the turns after them. If of several callers
/// only one has a line left, the pass of all lanes plays its next 1,024 lines, with the nodes of all
/// lanes, and the round ends.
///
/// A turn is played in batches of at most 128 attempts. A batch takes one allocation, with room for
/// its replies, and its replies are then appended to the list of the turn (`Keeper::List`). So a
/// round takes the memory of its replies in the form of the keeper's lists, and of one batch for
/// each caller. The lists are handed to the keeper when all turns of the round have ended.
///
/// The engine is renewed before a round if, in the round before, the first line met a limit, or a
/// turn ended by a limit or by the end of its attempts. Conflicts cause no renewal. If `play.attempts`
/// is the number of attempts of a lane, a turn makes all of them only if its lane then has none left.
/// A round after a renewal plays at least one line. So there are at most as many renewals as lines.
///
/// `AllocError` if memory runs out, here, at the keeper or in an attempt of the engine. Then the
/// engine has ended, and its contents are lost.
pub fn play_open_rounds<R, E, L, G, K>(
    play: &Play<'_, R, L, G>,
    engine: E,
    pass: E::Pass,
    keeper: &mut K,
) -> Result<OpenRounds<E>, AllocError>
where
    R: Threads + Sync,
    E: Engine,
    L: LawfulLines,
    L::B: Send,
    <L::B as Body>::Reply: Send,
    G: Gate + Sync,
    K: Keeper<<L::B as Body>::Reply>,
    K::List: Send,
    requires engine { CanPlay E.Engine (meaning_of L.B.Body L.Lines play.now.lines.now)
        (law_of L.LawfulLines.own play.now.lines.now) engine pass }
    requires laws { AreLawful (meaning_of L.B.Body L.Lines play.now.lines.now)
        (law_of L.LawfulLines.own play.now.lines.now) }
    requires keeper { CanKeepAll (L.suits play.now.lines.now) (K.can_keep keeper.old) }
    requires empty { (caller : ℕ) → K.keeps keeper.old caller [] }
    ensures pass { IfOk result (λ r. HoldsAllLanes E.Engine r.engine r.pass) }
    ensures each_line_once { IfOk result (λ r. ClosesTo (E.start r.engine)
        (map E.front r.fronts.items) (E.front r.pass) (λ fronts contents.
        EachLineOnce (meaning_of L.B.Body L.Lines play.now.lines.now) (K.keeps keeper.new)
        (L.good play.now.lines.now) (L.opening play.now.lines.now) fronts contents)) }
    ensures gate { OnOk result (IsToldOfEach (L.line_count play.now.lines.now)
        (G.after_called play.now.gate.now)) }
    ensures interleaving { IfOk result (λ r. ClosesTo (E.start r.engine)
        (map E.front r.fronts.items) (E.front r.pass) (λ fronts contents.
        IsInterleaving (L.line_count play.now.lines.now) (tags_of (committed_of fronts)))) }
    ensures fronts { IfOk result (λ r. length r.fronts.items
        ≤ lines_of (L.line_count play.now.lines.now) (L.caller_count play.now.lines.now)) }
{
    fresh_is_empty(&engine, &pass);
    let mut course = Course {
        engine,
        pass,
        fronts: Vec::new(play.alloc),
        done: none_done(play.alloc, play.lines.callers())?,
        worn: false,
    };
    'rounds: while let Some(caller) = next_caller(play.lines, &course.done) {
        course = play_round(play, course, caller, keeper)?;
    }
    let Course {
        engine,
        pass,
        fronts,
        done: _,
        worn: _,
    } = course;
    pass_is_legal(&engine, &pass);
    Ok(OpenRounds {
        engine,
        pass,
        fronts,
    })
}
