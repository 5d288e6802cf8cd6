// Laws of reading and writing messages. Each function has an empty body and states one law.
ghost use Rattle.std.specs.Prelude.{◌≡◌, ◌++◌, ℕ, List, None, length};
ghost use Rattle.octets.specs.Rules.{first_failing};
ghost use Rattle.map_messages.specs.Message.{canonical_message, left_over, message_rules, IsMessageAt, SpellsMessage};
ghost use Rattle.map_messages.specs.Range.{IsLawful};
ghost use Rattle.map_messages.specs.declared.message.Message.{Message};

/// Law: the written octets of a message spell it, whatever follows, and the octets that follow are
/// left over.
pub fn canonical_message_spells()
    ensures { (message : Message) (rest : List ℕ) → IsLawful message
        → SpellsMessage (canonical_message message ++ rest) message (length rest) }
{}

/// Law: octets that obey the rules spell exactly one message, with one number of octets left over.
pub fn one_message_is_spelled()
    ensures some { (base : ℕ) (octets : List ℕ) → first_failing (message_rules base octets) ≡ None
        → (message : Message) × IsMessageAt octets message }
    ensures spells { (base : ℕ) (octets : List ℕ) (message : Message)
        → first_failing (message_rules base octets) ≡ None → IsMessageAt octets message
        → SpellsMessage octets message (left_over octets) }
    ensures one { (octets : List ℕ) (a b : Message) (m n : ℕ)
        → SpellsMessage octets a m → SpellsMessage octets b n → (a ≡ b) × (m ≡ n) }
{}

/// Law: a message that was written is read again, and just the octets that follow are left over.
pub fn written_message_is_read_again()
    ensures rules { (base : ℕ) (message : Message) (rest : List ℕ) → IsLawful message
        → first_failing (message_rules base (canonical_message message ++ rest)) ≡ None }
    ensures value { (message read : Message) (rest : List ℕ) → IsLawful message
        → IsMessageAt (canonical_message message ++ rest) read → read ≡ message }
    ensures left { (message : Message) (rest : List ℕ) → IsLawful message
        → left_over (canonical_message message ++ rest) ≡ length rest }
{}
