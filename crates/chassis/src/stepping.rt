// One step of a run, on the replicas and the logs that it is lent.
ghost use Rattle.std.specs.Prelude.{◌≡◌, true, cond, List, ℕ, ◌+◌, ◌*◌, ◌≤◌, ◌<◌, length, take, drop, eqb};
ghost use Rattle.std.proofs.lemmas.List.Edits.{sets};
ghost use Rattle.protocol.specs.Limits.{most_cards, short_output, log_full};
ghost use Rattle.protocol.specs.Checks.{first_failing};
ghost use Rattle.protocol.specs.RoundRobin.{IsLink};
ghost use Rattle.wire.specs.Message.{version_2, clear_length, called_length};
ghost use Rattle.replica_model.specs.Calls.{ClearedOutcome};
ghost use Rattle.chassis_model.specs.Run.{action_of, amount_fits, call_of, N_at, answer_words, answer_length};
ghost use Rattle.chassis_model.specs.Told.{step_answer};
ghost use Rattle.protocol.specs.Refusals.{number_of, number_in};
ghost use Rattle.replica_model.specs.Told.{cleared_answer};
ghost use Rattle.chassis_model.proofs.Places.{link_place, links};
ghost use Rattle.chassis.specs.PartOf.{PartOf};
ghost use Rattle.chassis.specs.StepCodeLaws.{SizesFit, WordsFit, state_of, one_waits, HandReady, HandedOver, StepReady, StepDone, appended, StepAnswered, maker_own_checks, link_own_checks};

use crate::{Sizes, begin};
use chassis_model::{Action, Making, Step, StepAnswer};
use layout::words;
use protocol::Refusal;
use replica_model::Made;
use sending::{clearing, counting};
use taking::take;
use wire::decode;

// The numbers of the kinds, as a host in C writes them into a step: `action_of` turns them into the enum.
const COUNT: u32 = 1;

const CLEAR: u32 = 2;

const DELIVER: u32 = 3;

const READ_AND_CLEAR: u32 = 4;

// How many words a step's answer takes.
pub const ANSWER_WORDS: usize = 2;

// The limit as an index.
pub const MOST_CARDS: usize = protocol::MOST_CARDS as usize;

// One place for each receiver and sender, in fixed memory: nothing is allocated.
pub const LINKS: usize = MOST_CARDS * MOST_CARDS;

// What a step asks for. Nothing else looks at its numbers.
fn action_of(s: Step) -> Action
    ensures { result ≡ action_of s }
{
    match s.kind {
        COUNT => Action::Make(Making::Count(s.amount), s.first, s.second),
        CLEAR => Action::Make(Making::Clear, s.first, s.second),
        DELIVER => Action::Deliver(s.first, s.second),
        READ_AND_CLEAR => Action::Make(Making::ReadAndClear, s.first, s.second),
        _ => Action::Nothing,
    }
}

// Is it a step that counts, or one without an amount?
fn does_amount_fit(s: Step) -> bool
    ensures { result ≡ amount_fits s }
{
    s.kind == COUNT || s.amount == 0
}

// Lays the answer of step i into its words.
fn lay(answer: StepAnswer, i: usize, answers: &mut [u64])
    requires { i * answer_length + answer_length ≤ length answers.old }
    ensures { answers.new ≡ sets answers.old (i * answer_length) (answer_words answer) }
{
    let at = i * ANSWER_WORDS;
    answers[at] = answer.number;
    answers[at + 1] = answer.value;
}

// Where the place of a link is kept.
pub fn link(receiver: usize, sender: usize) -> usize
    requires { (receiver < most_cards) × (sender < most_cards) }
    ensures { (result ≡ link_place receiver sender) × (result < links) }
{
    MOST_CARDS * receiver + sender
}

// The message, and the value that is read: 0 for a count and a clear.
fn send(making: Making, replica: &mut [u64], counter: u64, out: &mut [u8]) -> Result<Made, Refusal>
    ensures { ◌≡◌ {A = ClearedOutcome} (record { answer = cleared_answer result; words = replica.new; out = out.new }) (call_of making counter replica.old out.old) }
{
    match making {
        Making::Count(amount) => counting::count(replica, counter, u64::from(amount), out),
        Making::Clear => {
            let made = clearing::clear(replica, counter, out)?;
            Ok(Made { value: 0, ..made })
        }
        Making::ReadAndClear => clearing::clear(replica, counter, out),
    }
}

// A log is a step's output, so `ShortOutput` becomes `LogFull`.
fn step_refusal(refusal: Refusal) -> Refusal
    ensures { number_of result ≡ cond (eqb (number_of refusal) short_output) log_full (number_of refusal) }
{
    match refusal {
        Refusal::ShortOutput => Refusal::LogFull,
        other => other,
    }
}

// The message goes to the log from `at` on.
fn append(
    making: Making,
    replica: &mut [u64],
    counter: u64,
    log: &mut [u8],
    at: usize,
) -> Result<Made, Refusal>
    requires { at ≤ length log.old }
    ensures { ◌≡◌ {A = ClearedOutcome} (record { answer = cleared_answer result; words = replica.new; out = log.new }) (appended making counter replica.old log.old at) }
{
    send(making, replica, counter, &mut log[at..]).map_err(step_refusal)
}

// N of `sender` in the replica of card `card`.
pub fn received(sizes: Sizes, words: &[u64], card: usize, sender: usize) -> u64
    requires { WordsFit sizes words.now × (card < sizes.cards) × (sender < sizes.cards) }
    ensures { (logs : List ℕ) → result ≡ N_at sizes.cards sizes.counters sizes.log_bytes (state_of words.now logs) card sender }
{
    words::messages_at(&words[sizes.replica(card)], sizes.cards, sender)
}

// The message that stands in a log from `at` on, as that part of the log.
fn next_message(log: &[u8], at: usize) -> &[u8]
    requires { (at ≤ length log.now) × (clear_length 0 ≤ length (drop at log.now)) × (called_length version_2 (drop at log.now) ≤ length (drop at log.now)) }
    ensures { PartOf log.entry at (take (called_length version_2 (drop at log.now)) (drop at log.now)) result }
{
    let rest = &log[at..];
    let length = decode::called_length_of(rest, wire::VERSION_2);
    &rest[..length]
}

// What take gave for a message that was handed over, and the place behind that message, which counts whether it was taken or not.
#[derive(Clone, Copy)]
pub struct Handed {
    pub taken: Result<u64, Refusal>,
    pub behind: u64,
}

// The message that stands from `at` on in the sender's log is handed over: the receiver's part of the words is lent to take, with
// that part of the log.
pub fn hand_over(
    sizes: Sizes,
    receiver: usize,
    sender: usize,
    at: u64,
    words: &mut [u64],
    logs: &[u8],
) -> Handed
    requires { HandReady sizes receiver sender at words.old logs.now }
    ensures { HandedOver sizes receiver sender at words.old logs.now result words.new }
{
    let message = next_message(&logs[sizes.log(sender)], at as usize);
    Handed {
        taken: take::take(&mut words[sizes.replica(receiver)], message),
        behind: at + message.len() as u64,
    }
}

// What a step that makes a message has against itself.
fn check_maker(sizes: Sizes, card: usize, counter: usize, fits: bool) -> Result<(), Refusal>
    ensures { number_in result ≡ first_failing (maker_own_checks sizes card counter fits) }
{
    if sizes.cards <= card {
        return Err(Refusal::BadCard);
    }
    if sizes.counters <= counter {
        return Err(Refusal::BadCounter);
    }
    if !fits {
        return Err(Refusal::BadAmount);
    }
    Ok(())
}

// Likewise of a delivery, before it is known whether one waits.
fn check_link(sizes: Sizes, receiver: usize, sender: usize, fits: bool) -> Result<(), Refusal>
    ensures { number_in result ≡ first_failing (link_own_checks sizes receiver sender fits) }
{
    if sizes.cards <= receiver || sizes.cards <= sender || receiver == sender {
        return Err(Refusal::BadCard);
    }
    if !fits {
        return Err(Refusal::BadAmount);
    }
    Ok(())
}

// A run as it stands: the replicas and the logs of a chassis, and the place of each link's next message.
#[derive(Drop)]
pub struct Chassis<'a> {
    pub sizes: Sizes,
    pub words: &'a mut [u64],
    pub logs: &'a mut [u8],
    pub places: [u64; LINKS],
    pub ghost ready: { ∥ StepReady sizes words.now logs.now places ∥₁ },
}

impl<'a> Chassis<'a> {
    ghost use Rattle.chassis.specs.InRun.{state_in, Ready, Kept, Begun};

    // How a run begins: every replica is fresh, whatever the words were, and no link has had a message.
    pub fn fresh(sizes: Sizes, words: &'a mut [u64], logs: &'a mut [u8]) -> Chassis<'a>
        requires { SizesFit sizes (length words.old) (length logs.old) }
        ensures same_words { result.words.ghost_name ≡ words.entry.ghost_name }
        ensures same_logs { result.logs.ghost_name ≡ logs.entry.ghost_name }
        ensures begun { Begun sizes logs.old result }
    {
        begin::fresh_all(words, sizes.cards, sizes.counters);
        Chassis {
            sizes,
            words,
            logs,
            places: [0; LINKS],
        }
    }

    // A message made by a card that is there: its own parts of the words and of the logs are lent to the call.
    fn make(&mut self, making: Making, card: usize, counter: u64) -> Result<u64, Refusal>
        requires { (card < self.old.sizes.cards) × (counter < self.old.sizes.counters) }
        ensures kept { Kept self.old self.new }
        ensures ready { Ready self.old → Ready self.new }
        ensures done { StepDone self.old.sizes (Action.Make making card counter) true (state_in self.old) (step_answer result) (state_in self.new) }
    {
        let own = link(card, card);
        let at = self.places[own];
        let made = append(
            making,
            &mut self.words[self.sizes.replica(card)],
            counter,
            &mut self.logs[self.sizes.log(card)],
            at as usize,
        )?;
        self.places[own] = at + made.length;
        Ok(made.value)
    }

    // Does one wait on this link? What the sender has made says so, and not what stands in its log.
    fn does_one_wait(&self, receiver: usize, sender: usize) -> bool
        requires { (receiver < self.now.sizes.cards) × (sender < self.now.sizes.cards) }
        ensures { result ≡ one_waits self.now.sizes (state_in self.now) receiver sender }
    {
        let had = received(self.sizes, self.words, receiver, sender);
        let made = received(self.sizes, self.words, sender, sender);
        had < made
    }

    // A delivery between two cards that are there.
    fn deliver(&mut self, receiver: usize, sender: usize) -> Result<u64, Refusal>
        requires { IsLink self.old.sizes.cards receiver sender }
        ensures kept { Kept self.old self.new }
        ensures ready { Ready self.old → Ready self.new }
        ensures done { StepDone self.old.sizes (Action.Deliver receiver sender) true (state_in self.old) (step_answer result) (state_in self.new) }
    {
        if !self.does_one_wait(receiver, sender) {
            return Err(Refusal::NothingWaiting);
        }
        let which = link(receiver, sender);
        // With a `&` of the field itself it would not be known that the logs stay.
        let logs: &mut [u8] = self.logs;
        let handed = hand_over(
            self.sizes,
            receiver,
            sender,
            self.places[which],
            self.words,
            logs,
        );
        self.places[which] = handed.behind;
        handed.taken?;
        Ok(0)
    }

    // One step, whatever its numbers: the value that it reads, 0 where it reads none.
    fn step(&mut self, s: Step) -> Result<u64, Refusal>
        ensures kept { Kept self.old self.new }
        ensures ready { Ready self.old → Ready self.new }
        ensures done { StepDone self.old.sizes (action_of s) (amount_fits s) (state_in self.old) (step_answer result) (state_in self.new) }
    {
        let fits = does_amount_fit(s);
        match action_of(s) {
            Action::Make(making, card, counter) => {
                let card = card as usize;
                check_maker(self.sizes, card, counter as usize, fits)?;
                self.make(making, card, u64::from(counter))
            }
            Action::Deliver(receiver, sender) => {
                let receiver = receiver as usize;
                let sender = sender as usize;
                check_link(self.sizes, receiver, sender, fits)?;
                self.deliver(receiver, sender)
            }
            Action::Nothing => Err(Refusal::BadKind),
        }
    }

    // Step i of a run, with its answer in its words. Returns the next step's number.
    // Ruled out: a step passed over (must-fail/steps_passed_over), and a number that is not the next step's (must-fail/next_step_after_next).
    pub fn answer_step(&mut self, s: Step, i: usize, answers: &mut [u64]) -> usize
        requires { i * answer_length + answer_length ≤ length answers.old }
        ensures next { result ≡ i + 1 }
        ensures kept { Kept self.old self.new }
        ensures ready { Ready self.old → Ready self.new }
        ensures done { StepAnswered self.old.sizes s i (state_in self.old) answers.old (state_in self.new) answers.new }
    {
        let answer = self.step(s).into();
        lay(answer, i, answers);
        i + 1
    }
}
