// The rulings of the data packets of a round.
ghost use Rattle.std.specs.Prelude.{◌≡◌, List, IfOk, IfSome, Some};
ghost use Rattle.lisp_settings.specs.Lawful.{IsLawful};
ghost use Rattle.router_log.specs.declared.entry.Entry.{Entry as EntryValue};
ghost use Rattle.router_model.specs.Parts.{Stands};
ghost use Rattle.forwarders.specs.Batches.{Begins, count_of, journal_of};
ghost use Rattle.forwarders.specs.Deciding.{AreAllDealt, AreWithin, Decides, HaveAnswered, IsDecided};
ghost use Rattle.forwarders.specs.Given.{IsGiven};
ghost use Rattle.forwarders.specs.Ruling.{AreByAnswers, AreRuled, HasLooked, HaveLooked, IsByAnswer, ruling_of};

use crate::answers::take_forwarded;
use crate::door::{Forwarded, Look, Published};
use crate::round_begun::Round;
use crate::workers::Worker;
use capture_io::Frame;
use lisp_settings::Settings;
use octets::NoMemory;
use router_core::Table;
use router_log::Decision;

/// The ruling of a data packet: by how many entries it was decided, the decision, and the receipt
/// of the forwarder's look, if a forwarder decided.
#[derive(Drop)]
pub(crate) struct Ruled {
    pub n: u64,
    pub decision: Decision,
    pub look: Option<Look>,
}

// The ruling of a data packet that a forwarder decided.
fn by_look(forwarded: Forwarded) -> Ruled
    ensures { result ≡ record {
      n = forwarded.look;
      decision = forwarded.decision;
      look = Some forwarded.look;
    } }
{
    let Forwarded { look, decision } = forwarded;
    Ruled {
        n: look.count(),
        decision,
        look: Some(look),
    }
}

// The ruling of a data packet, once all batches of its round are published: by the forwarder's
// decision; or by the table's, where no forwarder decided, or one did by a list that is ahead of
// what is published.
#[tactic(auto, using(crate::proofs::RulingLemmas::decided_by, crate::proofs::RulingLemmas::decided_last))]
fn rule_one(
    published: &Published,
    table: &Table,
    settings: &Settings,
    frame: &Frame,
    forwarded: Option<Forwarded>,
) -> Result<Ruled, NoMemory>
    requires lawful { IsLawful settings.now }
    requires stands { Stands settings.now table.now.parts (journal_of published.now.batches) }
    ensures decided { IfOk result (λ ruled. (first : List (List EntryValue))
        → Begins first published.now.batches
        → IfSome forwarded (Decides settings.now first published.now.batches frame.now)
        → IsDecided settings.now first published.now.batches frame.now (ruling_of ruled)) }
    ensures given { IfOk result (λ ruled.
        IfSome forwarded (λ forwarded. IsGiven forwarded.decision) → IsGiven ruled.decision) }
    ensures answer { IfOk result (IsByAnswer (count_of published.now.batches) forwarded) }
    ensures looked { IfOk result (HasLooked (count_of published.now.batches)) }
{
    if let Some(forwarded) = forwarded {
        if published.covers(&forwarded.look) {
            return Ok(by_look(forwarded));
        }
    }
    let decision = table.decide(settings, frame.moment, frame)?;
    Ok(Ruled {
        n: published.count(),
        decision,
        look: None,
    })
}

/// The rulings of the data packets in order, once all batches of their round are published.
pub(crate) fn rule_all<R, G>(
    round: &Round<'_, R, G>,
    table: &Table,
    published: &Published,
    places: &[usize],
    workers: &mut [Worker],
) -> Result<Vec<Ruled>, NoMemory>
    requires lawful { IsLawful round.now.settings.now }
    requires stands { Stands round.now.settings.now table.now.parts
        (journal_of published.now.batches) }
    requires places { AreWithin round.now.frames.now places.now }
    requires dealt { AreAllDealt workers.old }
    ensures ruled { IfOk result (λ ruled. (first : List (List EntryValue))
        → Begins first published.now.batches
        → HaveAnswered round.now.settings.now first published.now.batches
        round.now.frames.now places.now workers.old
        → AreRuled round.now.settings.now first published.now.batches
        round.now.frames.now places.now ruled.items) }
    ensures answers { IfOk result (λ ruled.
        AreByAnswers (count_of published.now.batches) workers.old ruled.items) }
    ensures looked { IfOk result (λ ruled.
        HaveLooked (count_of published.now.batches) ruled.items) }
{
    let frames = round.frames;
    let mut all = Vec::new(round.alloc);
    for (index, place) in places.iter().enumerate() {
        let forwarded = take_forwarded(workers, index);
        all.push(rule_one(published, table, round.settings, &frames[*place], forwarded)?)?;
    }
    Ok(all)
}
