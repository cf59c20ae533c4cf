use atomic_table::TableRule;

/// What a seat knows: what it has seen of both words, what it published, and the greatest stamp to
/// which it raised the closed word. No value of it is made.
pub struct Known {
    pub closed: u64,
    pub durable: u64,
    pub publishes: bool,
    pub published: u64,
    pub raised: u64,
}

/// The durable word is at most the closed one, and is what the one publishing seat published. What
/// a seat has seen is at most the words.
pub struct Law;

impl TableRule<u8, Known, u64> for Law {
    ghost use Rattle.mvo_marks.specs.Marks.{IsRuleKept, first};

    ghost holds = { λ start s. IsRuleKept s };

    ghost first = { first };
}
