// RULES 8.1, 8.2 and 8.8. Ported from phy/ce.rs: a slot of a capture round, its repetition, and the round with its
// rows and refusals.
ghost use Rattle.std.specs.Prelude.{◌≡◌, ◌<◌, false, length};
ghost use Rattle.engines.specs.Rows.{highest_progress};
ghost use Rattle.engines.specs.Rounds.{placed, Surveyed};
ghost use Rattle.engines.specs.declared.network.RoundConf.{RoundConf};
ghost use Rattle.capture.specs.declared.capture.CeState.{CeState};
ghost use Rattle.capture.specs.Capture.{voting_of, acted, finished, slot_of, over, network_in, draw_in, rows_of, start_of, answer_of, buffer_of};
ghost use Rattle.capture.specs.Boards.{fixed_of, ended_by, Shown, Goes, Advanced, Ran};

use super::board::{Board, CeFixed};
use super::ce::Told;
use super::{board, ce, idle, plan, turns};
use engines::network::{Network, RoundConf, Step, Survey};
use engines::words::Draw;
use engines::{network, rows};
use limits::refusals::Refusal;
use merges::merging::Payload;
use merges::votes::Voting;

// A round between two slots: the network, what each position holds, the cursor, and whether the goal test was passed.
#[derive(Clone, Copy)]
pub struct CeState {
    pub network: Network,
    pub held: [Payload; 64],
    pub draw: Draw,
    pub ended: bool,
}

// What merges ask for of the settings.
pub fn voting_of(conf: RoundConf) -> Voting
    ensures { result ≡ voting_of conf }
{
    Voting {
        n: conf.graph.n,
        abort_probability: conf.settings.abort_probability,
        seed: conf.settings.seed,
    }
}

// What a slot goes by, beside the links.
fn fixed_of(conf: RoundConf) -> CeFixed
    ensures { result ≡ fixed_of conf }
{
    CeFixed {
        voting: voting_of(conf),
        loss_rate: conf.settings.loss_rate,
        listen_timeout: conf.settings.listen_timeout,
        interval: conf.interval,
    }
}

// ---- a slot

// A slot in which all hold the same decision ends the round, and nobody acts in it.
fn end(interval: u64, b: Board) -> Board
    ensures { result ≡ ended_by interval b }
{
    Board {
        slot: b.slot.wrapping_add(1),
        next_row: rows::next_row(b.next_row, interval, b.slot),
        ended: true,
        ..b
    }
}

// What the slots of a round go by: the words, the links, and what is fixed beside them.
#[derive(Clone, Copy)]
struct Slots<'a> {
    words: &'a [u64],
    links: &'a [u64; 64],
    fixed: CeFixed,
}

impl Slots<'_> {
    // The plan of the slot, applied to what all held at its start.
    fn act(&self, b: Board, table: &mut [u64; 576]) -> Board
        ensures { (conf : RoundConf) (base c : CeState) → Goes conf self.now.links.now self.now.fixed → Shown conf.graph.n base b table.old c → Shown conf.graph.n base result table.new (acted self.now.words.now conf c) }
    {
        let f = self.fixed;
        let s = b.states;
        // 64 is nobody, and no Option: the list is that of the rules' plan, and of what is shown of senders by it
        // (specs/Plan.antt and Senders.antt).
        let mut hears = [64usize; 64];
        let p = plan::plan_slot(
            self.words, self.links, f, s, b.slot, b.draw, table, &mut hears,
        );
        let sent = ce::bytes_of(s.flooding, b.phases, table);
        let before = Told {
            phases: b.phases,
            can_sleep: b.can_sleep,
            new_info: 0,
        };
        let t = ce::tell_all(f.voting, p.targets, &hears, before, table);
        turns::turn(b, f.interval, p, sent, t, table)
    }

    // What follows the tick and the row of a slot.
    fn finish(&self, b: Board, table: &mut [u64; 576]) -> Board
        ensures { (conf : RoundConf) (base c : CeState) → Goes conf self.now.links.now self.now.fixed → Shown conf.graph.n base b table.old c → Shown conf.graph.n base result table.new (finished self.now.words.now conf c) }
    {
        if idle::goal_reached(self.fixed.voting.n, b.phases) {
            return end(self.fixed.interval, b);
        }
        self.act(b, table)
    }

    fn slot(&self, b: Board, table: &mut [u64; 576]) -> Board
        ensures { (conf : RoundConf) (base c : CeState) → Goes conf self.now.links.now self.now.fixed → Shown conf.graph.n base b table.old c → Shown conf.graph.n base result table.new (slot_of self.now.words.now conf c) }
    {
        turns::pass(b.states, 1, table);
        self.finish(b, table)
    }

    // ---- a run of slots: one that only counts its rows, and one that writes them. A flood has the same two loops
    // (flood src/flood.rt). One pair for both would ask of each kind, as a trait, all in which they differ: the step,
    // the two tests, and the row; and its contract would speak of the state that board and table show, which a flood
    // has no need of. What is shown of such loops is shown once for both (engines specs/Rounds.antt).

    // A step of a round: one slot or, where nobody acts, a stretch of them.
    fn advance(&self, b: Board, left: u64, table: &mut [u64; 576]) -> Step<Board>
        requires { (0 < left) × (b.ended ≡ false) }
        ensures left_lt_left { result.left < left }
        ensures advanced { (conf : RoundConf) (base c : CeState) → Goes conf self.now.links.now self.now.fixed → Shown conf.graph.n base b table.old c → Advanced self.now.words.now conf base left c result table.new }
    {
        let k = idle::idle_slots(self.fixed, b, table, left);
        if 0 < k {
            turns::pass(b.states, k, table);
            return Step {
                run: Board {
                    slot: b.slot.wrapping_add(k),
                    ..b
                },
                left: left - k,
            };
        }
        Step {
            run: self.slot(b, table),
            left: left - 1,
        }
    }

    // The round without its rows, and how many are due. Once words have run short the rest is not run: a round may have
    // four billion slots, and a lack stays noted.
    fn dry_run(&self, b: Board, length: u64, table: &mut [u64; 576]) -> Survey<Board>
        ensures { (conf : RoundConf) (base c : CeState) → Goes conf self.now.links.now self.now.fixed → conf.length ≡ length → Shown conf.graph.n base b table.old c → Ran self.now.words.now conf base c result table.new }
    {
        let mut d = b;
        let mut left = length;
        let mut due: u64 = 0;
        // No `for`: a step takes one slot or many.
        while 0 < left {
            if d.ended {
                return Survey { run: d, due };
            }
            if d.draw.short {
                return Survey { run: d, due };
            }
            due = rows::due_after(due, d.next_row, d.slot);
            let s = self.advance(d, left, table);
            d = s.run;
            left = s.left;
        }
        Survey { run: d, due }
    }

    // The round again, for its rows alone, as many as the part that is lent holds. Slots behind the last row are not
    // run again. No capture round counts progress, so `top` is its highest from start to end.
    fn record_run(&self, part: &mut [u64], b: Board, length: u64, top: u64, table: &mut [u64; 576])
        ensures { (conf : RoundConf) (base c : CeState) → Goes conf self.now.links.now self.now.fixed → conf.length ≡ length → Shown conf.graph.n base b table.old c → highest_progress conf.graph.n base.network.nodes ≡ top → part.new ≡ placed part.old 0 (rows_of self.now.words.now conf length c) }
    {
        let mut d = b;
        let mut left = length;
        let mut at: usize = 0;
        // No `for`: a step takes one slot or many.
        while 0 < left {
            if d.ended {
                return;
            }
            if rows::is_full(part.len(), at) {
                return;
            }
            let r = rows::count_states(d.next_row, top, d.states);
            at = network::put_due(part, at, d.slot, r);
            let s = self.advance(d, left, table);
            d = s.run;
            left = s.left;
        }
    }
}

// ---- the round

// The round without its rows: the initiator floods, all others listen, and words are drawn from the cursor on.
fn survey(
    words: &[u64],
    conf: RoundConf,
    c: CeState,
    initiator: usize,
    cursor: usize,
) -> Survey<CeState>
    ensures { Surveyed network_in over (slot_of words.now conf) conf draw_in conf.length (start_of conf initiator cursor c) result.run result.due }
{
    let g = conf.graph;
    let slots = Slots {
        words,
        links: &g.adj,
        fixed: fixed_of(conf),
    };
    let mut table = [0u64; 576];
    let b = board::unpack(g.n, c, initiator, cursor, &mut table);
    let d = slots.dry_run(b, conf.length, &mut table);
    Survey {
        run: board::pack(g.n, c, d.run, &table),
        due: d.due,
    }
}

// Its rows, into a part of their length.
fn write_rows(
    words: &[u64],
    part: &mut [u64],
    conf: RoundConf,
    c: CeState,
    initiator: usize,
    cursor: usize,
)
    ensures { part.new ≡ placed part.old 0 (rows_of words.now conf conf.length (start_of conf initiator cursor c)) }
{
    let g = conf.graph;
    let slots = Slots {
        words,
        links: &g.adj,
        fixed: fixed_of(conf),
    };
    let top = rows::highest_progress(c.network.nodes, g.n);
    let mut table = [0u64; 576];
    let b = board::unpack(g.n, c, initiator, cursor, &mut table);
    slots.record_run(part, b, conf.length, top, &mut table);
}

// A round from slot to slot, its rows written behind the rows already used. A refused round changes nothing. The rows
// due are counted first, and the round is run again only for them. (Rows and how many are used stay two: C lends the
// one and tells the other, and a pair of them would be taken apart here, where both are used. State, initiator and
// cursor, here and above, stay three: a call brings them one by one, and board.rt would take them apart to unpack.)
pub fn run_ce_round(
    words: &[u64],
    rows: &mut [u64],
    used: &mut usize,
    conf: RoundConf,
    c: &mut CeState,
    initiator: usize,
    cursor: usize,
) -> Result<(), Refusal>
    ensures value { record { told = result; state = c.new; used = used.new } ≡ answer_of words.now (length rows.old) used.old conf c.old initiator cursor }
    ensures rows_after { rows.new ≡ buffer_of words.now rows.old used.old conf c.old initiator cursor }
{
    network::check_length(conf, c.network.slot)?;
    let d = survey(words, conf, *c, initiator, cursor);
    let e = d.run;
    network::check_late(e.draw.short, d.due, rows.len(), *used)?;
    let due = d.due as usize;
    let behind = *used + due;
    if due != 0 {
        let from = *used * limits::ROW;
        let to = behind * limits::ROW;
        write_rows(words, &mut rows[from..to], conf, *c, initiator, cursor);
    }
    *c = e;
    *used = behind;
    Ok(())
}
