//! Attempts to reserve.
ghost use Rattle.std.specs.Prelude.{◌≡◌, ◌≢◌, ◌⊎◌, ◌+◌, ◌*◌, ◌/◌, ◌<◌, ◌≤◌, ◌^◌, ◌&&◌, ℕ, List};
ghost use Rattle.std.specs.Prelude.{[], ◌∷◌, max, true, false, if◌then◌else◌, length, All, IfNone};
ghost use Rattle.std.specs.Prelude.{IfSome};
ghost use Rattle.std.specs.List.{AllByRecursion};
ghost use Rattle.bip_model.specs.Numbering.{IsLowest};
ghost use Rattle.bip_model.specs.Wants.{IsWants, components_of, is_moved, moved_in};
ghost use Rattle.bip_model.specs.declared.wants.Want.{Want};
ghost use Rattle.std.specs.List.Sorted.{IsStrictlyIncreasing};
ghost use Rattle.bip_words.specs.Knowledge.{asked_by};
ghost use Rattle.bip_words.specs.Reserving.{Answered, Covers, IsAttempt, IsFree, IsGrantedWith};
ghost use Rattle.bip_words.specs.Reserving.{HasWrittenRow, LookedInOrder, TriedOnce};
ghost use Rattle.bip_words.specs.Reserving.{IsRefusedIn, claims_after, is_granted};
ghost use Rattle.bip_words.specs.Rows.{HasRow, IsRowOf, WantsWithoutRow, row_comps};
ghost use Rattle.bip_words.specs.Rule.{IsNotDue};
ghost use Rattle.bip_words.specs.Steps.{IsBelow, IsCovered, IsSeenMost, IsSmall, owing};
ghost use Rattle.bip_words.specs.Steps.{with_claim, with_found, with_row_back, with_ticket};
ghost use Rattle.bip_words.specs.Tables.{IsSeatOf};
ghost use Rattle.bip_words.specs.declared.knowledge.Claim.{Claim};
ghost use Rattle.bip_words.specs.declared.knowledge.Learned.TheVariants.{Look as Looked};
ghost use Rattle.bip_words.specs.declared.knowledge.Learned.TheVariants.{Changed};

use crate::rows::row_of;
use crate::rule::Token;
use crate::steps::{Draw, Give, Look, Take};
use crate::tables::{Attempt, Seat, WordTable};
use bip_model::{CompId, Number, Request, Role, Want};

impl WordTable {
    /// Tries once to reserve what a request wants, with numbers below 2^58. Unknown, tested first,
    /// names the lowest wanted component without a row, and no step was made. Else rows are looked
    /// at and claimed in rising order, so that before a refusal all wants of lower components were
    /// found fresh. Used: this component's number isn't above the used one that a look of this
    /// call found, which is at least what the seat had seen of the row. Busy: a look found the
    /// claim of another seat on this component's row, or the exchange behind it another word. Both
    /// give the claims back. Granted: the seat has one grant more, with a serial above all its
    /// others. The call waits for nobody and takes no memory; no row is looked at twice
    /// (docs/WORDS.md, "Attempts").
    pub fn try_reserve(&self, seat: &mut Seat, request: &Request) -> Attempt
        requires seat { IsSeatOf self.now seat.old }
        requires small { All (λ (w : Want). w.number < 2 ^ 58) request.now.wants }
        ensures seat { IsSeatOf self.now seat.new }
        ensures answer { IsAttempt self.now.rows (asked_by request.now) result seat.old.knows
            seat.new.knows }
        ensures order { LookedInOrder (row_comps self.now.rows) request.now.wants result
            seat.old.knows seat.new.knows }
        ensures once { TriedOnce (row_comps self.now.rows) request.now.wants result seat.old.knows
            seat.new.knows }
        ensures unclaimed { seat.new.knows.claims ≡ [] }
    {
        let wants = request.wants.as_slice();
        let token = &mut seat.token;
        if let Some(comp) = first_lacking(self.rows.as_slice(), wants) {
            return Attempt::Unknown(comp);
        }
        let answer = self.reserve_rest(token, request, wants);
        if let Attempt::Granted(_) = answer {
            seat.grants += 1;
        }
        answer
    }
}

/// The first wanted component without a row, if there is one: the lowest.
fn first_lacking(rows: &[(CompId, Number)], wants: &[Want]) -> Option<CompId>
    requires { IsStrictlyIncreasing (components_of wants.now) }
    ensures none { IfNone result (AllByRecursion (HasRow (row_comps rows.now)) wants.now) }
    ensures some { IfSome result (λ c. IsLowest (WantsWithoutRow rows.now wants.now) c.0) }
{
    let Some((want, more)) = wants.split_first() else {
        return None;
    };
    match row_of(rows, want.comp) {
        None => Some(want.comp),
        Some(_) => first_lacking(rows, more),
    }
}

impl WordTable {
    /// Claims the rows of the rest of the wants, each in turn; draws the ticket with all claimed;
    /// and gives the rows back.
    fn reserve_rest(&self, token: &mut Token, asked: &Request, rest: &[Want]) -> Attempt
        requires seat { token.old.table_id ≡ self.now.id }
        requires idle { AllByRecursion IsNotDue token.old.me.0.claims }
        requires covers { Covers (row_comps self.now.rows) token.old.me.0.claims asked.now.wants
            rest.now }
        requires free { AllByRecursion (IsFree (row_comps self.now.rows) token.old.me.0.claims)
            rest.now }
        requires rows { AllByRecursion (HasRow (row_comps self.now.rows)) rest.now }
        requires wants { IsWants asked.now.wants }
        requires small { AllByRecursion IsSmall asked.now.wants }
        requires asked { (rest.now ≡ asked.now.wants) ⊎ (token.old.me.0.asked ≡ asked.now) }
        ensures same { (token.new.table_id ≡ token.old.table_id) × (token.new.id ≡ token.old.id)
            × (token.new.me.1 ≡ token.old.me.1) }
        ensures claims { token.new.me.0.claims ≡ claims_after result token.old.me.0.claims }
        ensures asked { IsGrantedWith result (token.new.me.0.asked ≡ asked.now) }
        ensures answer { Answered (row_comps self.now.rows) (asked_by asked.now) result
            token.old.me.0 token.new.me.0 }
        ensures written { IsGrantedWith result (AllByRecursion (HasWrittenRow
            (row_comps self.now.rows) token.new.me.0.notes) rest.now) }
        ensures order { LookedInOrder (row_comps self.now.rows) rest.now result token.old.me.0
            token.new.me.0 }
        ensures within { IsRefusedIn result rest.now }
        ensures once { TriedOnce (row_comps self.now.rows) rest.now result token.old.me.0
            token.new.me.0 }
    {
        let Some((want, more)) = rest.split_first() else {
            return Attempt::Granted(self.draw(token));
        };
        let Some(row) = row_of(self.rows.as_slice(), want.comp) else {
            unreachable!()
        };
        let found = self.look_at(token, row);
        if found % 2 == 1 {
            return Attempt::Busy(want.comp);
        }
        let used = found / 2;
        if want.number <= used {
            return Attempt::Used {
                comp: want.comp,
                used,
            };
        }
        if self.claim_at(token, row, used, asked) != found {
            return Attempt::Busy(want.comp);
        }
        let answer = self.reserve_rest(token, asked, more);
        let number = number_after(want, &answer, used);
        self.give_at(token, row, number);
        answer
    }

    /// The word of a row.
    fn look_at(&self, token: &mut Token, row: usize) -> u64
        requires seat { token.old.table_id ≡ self.now.id }
        requires row { row < length self.now.rows }
        ensures same { (token.new.table_id ≡ token.old.table_id) × (token.new.id ≡ token.old.id) }
        ensures noted { token.new.me
            ≡ (with_found Looked row result token.old.me.0, token.old.me.1) }
        ensures most { AllByRecursion (IsSeenMost row result) token.old.me.0.notes }
    {
        self.words.shared.load::<Look>(token, row + 1)
    }

    /// Claims a row whose number is this, for a request. Answers the word that was found.
    fn claim_at(&self, token: &mut Token, row: usize, used: u64, request: &Request) -> u64
        requires seat { token.old.table_id ≡ self.now.id }
        requires row { row < length self.now.rows }
        requires used { used < 2 ^ 63 }
        requires idle { AllByRecursion IsNotDue token.old.me.0.claims }
        ensures same { (token.new.table_id ≡ token.old.table_id) × (token.new.id ≡ token.old.id) }
        ensures hit { result ≡ 2 * used
            → token.new.me ≡ (with_claim row result request.now token.old.me.0, token.old.me.1) }
        ensures miss { result ≢ 2 * used
            → token.new.me ≡ (with_found Changed row result token.old.me.0, token.old.me.1) }
    {
        self.words
            .shared
            .compare_exchange_with::<Take>(token, row + 1, 2 * used, 2 * used + 1, request)
    }

    /// Draws the ticket, with all rows claimed: the serial of the grant.
    fn draw(&self, token: &mut Token) -> u64
        requires seat { token.old.table_id ≡ self.now.id }
        requires idle { AllByRecursion IsNotDue token.old.me.0.claims }
        requires covers { AllByRecursion (IsCovered (row_comps self.now.rows)
            token.old.me.0.claims) token.old.me.0.asked.wants }
        requires small { AllByRecursion IsSmall token.old.me.0.asked.wants }
        requires moves { (r d : ℕ) × IsRowOf (row_comps self.now.rows) r d
            × (0 < moved_in token.old.me.0.asked.wants d) }
        ensures same { (token.new.table_id ≡ token.old.table_id) × (token.new.id ≡ token.old.id) }
        ensures drawn { token.new.me ≡ (with_ticket result token.old.me.0, token.old.me.1) }
        ensures below { AllByRecursion (IsBelow result) token.old.me.0.grants
            × (length token.old.me.0.grants ≤ result) × (result ≤ 2 ^ 63) }
    {
        self.words.shared.fetch_add::<Draw>(token, 0, 1)
    }

    /// Gives back the row that was claimed last, with this number.
    fn give_at(&self, token: &mut Token, row: usize, number: u64)
        requires seat { token.old.table_id ≡ self.now.id }
        requires number { number < 2 ^ 63 }
        requires claim { (x : Claim) × (rest : List Claim) × (d : ℕ)
            × (token.old.me.0.claims ≡ x ∷ rest) × (x.row ≡ row)
            × IsRowOf (row_comps self.now.rows) row d
            × (number ≡ max x.used (owing x.due (moved_in token.old.me.0.asked.wants d))) }
        requires row { row < length self.now.rows }
        ensures same { (token.new.table_id ≡ token.old.table_id) × (token.new.id ≡ token.old.id) }
        ensures given { token.new.me
            ≡ (with_row_back row (2 * number) token.old.me.0, token.old.me.1) }
    {
        self.words.shared.store::<Give>(token, row + 1, 2 * number);
    }
}

/// The number of a claimed row once the answer is known, where it had this one.
fn number_after(want: &Want, answer: &Attempt, used: u64) -> u64
    ensures { result ≡ (if is_granted answer.now && is_moved want.now.role then want.now.number
        else used) }
{
    match (answer, want.role) {
        (Attempt::Granted(_), Role::Moved) => want.number,
        _ => used,
    }
}
