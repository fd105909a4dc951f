//! A scoreboard and congestion control, and rows' calls that change them (`write` queues octets) or compare their answers.
ghost use Rattle.pd_recover.specs.Acks.{IsAck};

use crate::rows::{NO_MEMORY, RowReader};
use pd_board::Board;
use pd_recover::{Ack, AckAction, Cong, Delivery, NextSegment, SackNews};
use pd_seg::Span;
use pd_settings::{Settings, Value};
use std::alloc::Global;

/// So many octets are queued at most.
const MOST: u32 = 1_000_000;

#[derive(Drop)]
pub struct ScoreboardCalls {
    alloc: Global,
    smss: u16,
    board: Board,
    window: Cong,
    /// How many octets were SACKed before the last ACK.
    sacked: u32,
    /// How many were outstanding and not SACKed before it.
    undelivered_octets: u32,
    /// The number after the last lost octet before it.
    lost_edge: u32,
}

/// The settings with another value, if the key takes it.
fn with(settings: Settings, key: &[u8], value: Value) -> Settings {
    settings.with(key, value).unwrap_or(settings)
}

/// The settings with a threshold of slow start, the L of byte counting, the restart after an idle time, and the algorithm of
/// recovery of a word.
fn settings(ssthresh: u64, limit: u64, algorithm: &str) -> Settings {
    let begun = with(
        Settings::new(),
        b"initial_ssthresh",
        Value::Number(ssthresh),
    );
    let counting = with(begun, b"abc_limit", Value::Number(limit));
    let restarting = with(counting, b"slow_start_after_idle", Value::Boolean(true));
    with(
        restarting,
        b"recovery_algorithm",
        Value::from_word_or_other(algorithm.as_bytes()),
    )
}

/// The sending that an ACK leads to, in a word, and its segment if it has one.
fn action_word_and_segment(then: AckAction) -> (&'static str, Option<Span>) {
    match then {
        AckAction::Ordinary => ("ordinary", None),
        AckAction::StepC => ("step-c", None),
        AckAction::Entry => ("entry", None),
        AckAction::LimitedTransmit => ("limited", None),
        AckAction::NewSegment(segment) => ("segment", Some(segment)),
        AckAction::FastRetransmit(segment) => ("again", Some(segment)),
        AckAction::Nothing => ("nothing", None),
    }
}

/// The rule of NextSeg that gave a segment, in a word.
fn nextseg_rule_word(sent: NextSegment) -> &'static str {
    match sent {
        NextSegment::Lost(_) => "lost",
        NextSegment::New(_) => "new",
        NextSegment::Hole(_) => "hole",
        NextSegment::Rescue(_) => "rescue",
    }
}

impl ScoreboardCalls {
    pub fn new(alloc: Global) -> ScoreboardCalls {
        ScoreboardCalls {
            alloc,
            smss: 1_000,
            board: Board::new(alloc, 1_000),
            window: Cong::new(&Settings::new(), 1_000, false),
            sacked: 0,
            undelivered_octets: 0,
            lost_edge: 0,
        }
    }

    /// Makes a call, compares its answers, and goes on with a copy of the scoreboard. Where a call found no memory, there is
    /// no copy.
    pub fn make(&mut self, call: &str, row: &mut RowReader<'_>) {
        match call {
            "write" => self.write(row),
            "sent" => self.send(row),
            "skip" => self.board.advance_next_past_sacked(),
            "ack" => self.acknowledge(row),
            "mark" => self.mark(row),
            "all" => self.compare(row),
            _ => self.control(call, row),
        }
        self.copy(row);
    }

    /// Makes a call of congestion control.
    fn control(&mut self, call: &str, row: &mut RowReader<'_>) {
        match call {
            "expire" => self.expire(row),
            "hear" => self.receive_ack(row),
            "enter" => self.note_entry_retransmit(row),
            "pipe" => row.expect("the pipe", self.board.pipe(self.window.high_rxt())),
            "pace" => self.set_prr_cwnd(row),
            "next" => self.compare_and_note_step_c_segment(row),
            "limited" => self.transmit_limited(row),
            "restart" => self
                .window
                .restart_cwnd_if_idle(self.board.smss(), row.is_set()),
            _ => row.note("its call, which is none"),
        }
    }

    fn copy(&mut self, row: &mut RowReader<'_>) {
        match self.board.copy() {
            Ok(copy) => self.board = copy,
            Err(_) => row.note(NO_MEMORY),
        }
    }

    /// A list begins.
    pub fn begin(&mut self, row: &mut RowReader<'_>) {
        let smss = row.short().clamp(64, 65_495);
        let ssthresh = row.number();
        self.smss = smss;
        self.board = Board::new(self.alloc, smss);
        let is_resent = row.is_set();
        let limit = row.number();
        self.window = Cong::new(&settings(ssthresh, limit, row.word()), smss, is_resent);
        self.sacked = 0;
        self.undelivered_octets = 0;
        self.lost_edge = 0;
    }

    /// Octets are queued, up to a limit.
    fn write(&mut self, row: &mut RowReader<'_>) {
        let room = MOST.saturating_sub(self.board.end());
        self.board.write(row.octet_number_or_count().min(room));
    }

    /// A segment is sent.
    fn send(&mut self, row: &mut RowReader<'_>) {
        let end = row
            .octet_number_or_count()
            .clamp(self.board.una(), self.board.end());
        let _ = self.board.sent(end);
    }

    /// The timer expires, and the segment at `una` is to be sent.
    fn expire(&mut self, row: &mut RowReader<'_>) {
        let una = self.board.una();
        self.window
            .on_timeout(self.board.smss(), una, self.board.top());
        self.board.clear_marks();
        row.expect_segment("the segment of an expiry", Some(self.board.run_at(una)));
    }

    /// Octets are acknowledged.
    fn acknowledge(&mut self, row: &mut RowReader<'_>) {
        let number = row
            .octet_number_or_count()
            .clamp(self.board.una(), self.board.top());
        self.sacked = self.board.sacked_octets();
        self.undelivered_octets = self.board.undelivered_octets();
        self.lost_edge = self.board.after_last_lost_octet_or_zero();
        self.board.take_ack(number);
    }

    /// A block is SACKed.
    fn mark(&mut self, row: &mut RowReader<'_>) {
        let start = row.octet_number_or_count();
        let end = row.octet_number_or_count().min(self.board.top());
        let is_new = self.board.mark(Span { start, end }).unwrap_or(false);
        row.expect("a new octet", u32::from(is_new));
    }

    /// An ACK arrives, once its number and its blocks are noted.
    fn receive_ack(&mut self, row: &mut RowReader<'_>) {
        let ack = self.ack(row);
        let (word, segment) = action_word_and_segment(self.window.on_ack(ack));
        row.expect_word("what an ACK leads to", word);
        row.expect_segment("the segment that an ACK leads to", segment);
    }

    /// The ACK that a row writes.
    fn ack(&self, row: &mut RowReader<'_>) -> Ack
        ensures { IsAck result }
    {
        let acked = row.octet_number_or_count();
        let rwnd = row.octet_number_or_count();
        let same_window = row.is_set();
        Ack {
            smss: self.board.smss(),
            una: self.board.una(),
            top: self.board.top(),
            end: self.board.end(),
            rwnd,
            acked,
            delivery: self.delivery_of_ack(acked),
            same_window,
            fin: false,
            sack: self.sack_news_of_word(row.word()),
        }
    }

    /// The octets that an ACK of so many delivered, by the scoreboard before it.
    fn delivery_of_ack(&self, acked: u32) -> Delivery {
        Delivery {
            delivered_data: acked
                .saturating_add(self.board.sacked_octets())
                .saturating_sub(self.sacked),
            recover_fs: self.undelivered_octets,
            safe_ack: acked > 0 && self.board.after_last_lost_octet_or_zero() <= self.lost_edge,
        }
    }

    /// The report of the blocks of an ACK, where SACK was agreed.
    fn sack_news_of_word(&self, word: &str) -> Option<SackNews> {
        if word == "-" {
            return None;
        }
        Some(SackNews {
            fresh: word == "1",
            lost: self.board.is_lost(self.board.una()),
        })
    }

    /// Recovery begins.
    fn note_entry_retransmit(&mut self, row: &mut RowReader<'_>) {
        let segment = self.board.run_at(self.board.una());
        row.expect_segment("the segment of an entry", Some(segment));
        self.window
            .set_high_and_rescue_rxt_and_count_prr_out(segment);
    }

    /// An ACK in recovery sets the window by PRR.
    fn set_prr_cwnd(&mut self, row: &mut RowReader<'_>) {
        self.window
            .set_cwnd_pipe_plus_sndcnt_if_prr(self.board.smss(), row.octet_number_or_count());
        row.expect("the window by PRR", self.window.cwnd());
        let prr = self.window.prr();
        row.expect("prr_delivered", prr.prr_delivered);
        row.expect("prr_out", prr.prr_out);
    }

    /// Step C finds its next segment.
    fn compare_and_note_step_c_segment(&mut self, row: &mut RowReader<'_>) {
        let rwnd = row.octet_number_or_count();
        let pipe = row.octet_number_or_count();
        match self.window.step_c_segment(&self.board, rwnd, pipe) {
            Some(sent) => {
                row.expect_word("the rule of step C", nextseg_rule_word(sent));
                row.expect_segment("a segment of step C", Some(sent.segment()));
                self.window.update_high_or_rescue_rxt_and_prr(&sent);
            }
            None => row.expect_word("whether step C sends", "-"),
        }
    }

    /// Limited transmit finds its next segment.
    fn transmit_limited(&mut self, row: &mut RowReader<'_>) {
        let rwnd = row.octet_number_or_count();
        let pipe = row.octet_number_or_count();
        let found = self
            .window
            .limited_transmit_segment(&self.board, rwnd, pipe);
        row.expect_segment("a segment of limited transmit", found);
        if let Some(segment) = found {
            let count = segment.end.saturating_sub(segment.start);
            self.window.count_limited_transmit_octets(count.min(65_495));
        }
    }

    /// Compares the numbers, and all that can be asked.
    fn compare(&self, row: &mut RowReader<'_>) {
        row.check("SMSS", self.board.smss() == self.smss);
        row.expect("una", self.board.una());
        row.expect("next", self.board.next());
        row.expect("top", self.board.top());
        row.expect("end", self.board.end());
        row.expect("cwnd", self.window.cwnd());
        let is_recovering = u32::from(self.window.is_recovering());
        row.expect("whether recovery goes on", is_recovering);
        self.compare_runs(row);
        self.compare_octet(row);
        self.compare_after_high_rxt(row);
        row.expect_segment("the rescue", self.board.rescue());
        row.expect(
            "the last lost octet",
            self.board.after_last_lost_octet_or_zero(),
        );
    }

    /// Compares how many octets are free and SACKed in turns, from `una` on, up to the last SACKed one and a dot.
    fn compare_runs(&self, row: &mut RowReader<'_>) {
        let mut place = self.board.una();
        for run in self.board.sacked_spans() {
            row.expect("where a run begins", run.start.wrapping_sub(place));
            row.expect("where a run ends", run.end.wrapping_sub(run.start));
            place = run.end;
        }
        row.expect_word("how many runs there are", ".");
    }

    /// Compares what is answered of an octet.
    fn compare_octet(&self, row: &mut RowReader<'_>) {
        let octet = row
            .octet_number_or_count()
            .clamp(self.board.una(), self.board.top());
        let is_lost = u32::from(self.board.is_lost(octet));
        row.expect("whether an octet is lost", is_lost);
        let segment = self.board.run_at(octet);
        row.check("where a segment begins", segment.start == octet);
        row.expect("where a segment ends", segment.end);
    }

    /// Compares what is answered where octets were sent again up to a number.
    fn compare_after_high_rxt(&self, row: &mut RowReader<'_>) {
        let high_rxt = row.octet_number_or_count();
        row.expect("the pipe", self.board.pipe(high_rxt));
        row.expect_some("the next lost octet", self.board.next_lost(high_rxt));
        row.expect_some(
            "the next hole",
            self.board.find_unsacked_octet_by_nextseg_rule_3(high_rxt),
        );
    }
}
