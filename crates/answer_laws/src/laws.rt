// Laws of the answers of whole runs. Each function only states its law.
ghost use Rattle.std.specs.Prelude.{◌≡◌, ℕ, List, None, length};
ghost use Rattle.desk.specs.declared.file.NamedFile.{NamedFile};
ghost use Rattle.lisp_settings.specs.declared.settings.Settings.{Settings};
ghost use Rattle.audit.specs.declared.outcome.Outcome.TheVariants.{Same};
ghost use Rattle.audit_laws.specs.Drawn.{MayLift};
ghost use Rattle.audit_laws.specs.Sent.{sent_packets, written};
ghost use Rattle.replay.specs.Answer.{answer, told_off};
ghost use Rattle.replay.specs.Lines.{comparison_line};
ghost use Rattle.replay.specs.declared.status.Status.TheVariants.{Done};
ghost use Rattle.answer_laws.specs.Audited.{frames_in, Audits, Replays};

use audit_laws::{lifted_nonces_make_it_the_same, sent_packets_are_read};

/// Law: where a replay comes to its end, an audit of the file that it made, with the nonces that
/// are lifted out of that file, answers that all packets are the same, under the conditions of
/// `MayLift`, and where the capture written of these packets has no fault.
pub fn an_audit_of_a_replay_is_the_same()
    ensures { (replay audit : List (List ℕ)) (before after : List NamedFile) (own : Settings)
        (input : List ℕ) (made : NamedFile)
        → Replays replay before own input made → Audits audit after own input made.octets
        → let frames = frames_in input in
        MayLift own frames → (written (sent_packets own frames)).fault ≡ None
        → answer audit after
        ≡ told_off Done (comparison_line (Same (length (sent_packets own frames)))) }
{
    lifted_nonces_make_it_the_same();
    sent_packets_are_read();
}
