ghost use Rattle.std.specs.Prelude.{◌≡◌, ◌<◌, ◌≤◌, ◌+◌, ◌⊎◌, ◌↔◌, ℕ, List, length, slice_index, Option};
ghost use Rattle.pt_sector.specs.Sectors.{Sectors, Span, Agrees};
ghost use Rattle.pt_sector.specs.declared.address.Lba.{Lba};
ghost use Rattle.pt_mbr.specs.Records.{RecordIs, MbrBytes, BearsProtective, IsProtective};
ghost use Rattle.pt_mbr.specs.Chain.{EbrBytes, IsEbrFault, Chain, ChainFault, ChainReads, IsDevice, StandsAt, IsAtFault, SameChains};
ghost use Rattle.pt_mbr.specs.declared.record.Record.{Record};
ghost use Rattle.pt_mbr.specs.declared.mbr.Mbr.{Mbr};
ghost use Rattle.pt_mbr.specs.declared.ebr.Ebr.{Ebr};
ghost use Rattle.pt_mbr.specs.declared.ebr.EbrFault.{EbrFault};
ghost use Rattle.pt_mbr.specs.declared.chain.ChainError.{ChainError};

/// A law: the bytes at a place are one record at most, or none.
pub fn record_is_one()
    ensures { (o p : Option Record) (at : ℕ) (b : List ℕ) → RecordIs o at b → RecordIs p at b → o ≡ p }
{}

/// A law: the bytes of a sector are one master boot record at most.
pub fn mbr_is_one()
    ensures { (m n : Mbr) (b : List ℕ) → MbrBytes m b → MbrBytes n b → m ≡ n }
{}

/// Laws: the bytes of a sector are one extended boot record at most, and none where a rule fails.
pub fn ebr_is_one()
    ensures one { (first : ℕ) (at : Lba) (e f : Ebr) (b : List ℕ) → EbrBytes first at e b → EbrBytes first at f b → e ≡ f }
    ensures none { (first : ℕ) (at : Lba) (e : Ebr) (fault : EbrFault) (b : List ℕ) → IsEbrFault fault b → ¬ EbrBytes first at e b }
{}

/// Laws: an extended partition has one chain at most, and none where the disk has a fault.
pub fn chains_are_one()
    ensures one { (d : Sectors) (x : Span) (list other : List Ebr) → Chain d x list → Chain d x other → list ≡ other }
    ensures none { (d : Sectors) (x : Span) (e : ChainError) (list : List Ebr) → ChainFault d x e → Chain d x list → IsDevice e }
{}

/// A law: a disk that agrees with another on the sectors that decide its chain has the same chain, or the same fault,
/// by the same sectors.
pub fn chain_reads_decide()
    ensures { (x : Span) (c d : Sectors) → Agrees (ChainReads d x) c d → SameChains x c d }
{}

/// Laws: the sectors that decide a chain are those of its extended boot records; those that decide a fault of the disk
/// are the ones that lead to it and, but for `OutsideExtended` and `TooLong`, its own.
pub fn chain_reads_are()
    ensures chain { (d : Sectors) (x : Span) (list : List Ebr) → Chain d x list → (s : ℕ) → ChainReads d x s ↔ StandsAt s list }
    ensures fault { (d : Sectors) (x : Span) (e : ChainError) (f : ChainFault d x e) → ¬ IsDevice e → (s : ℕ)
        → ChainReads d x s ↔ (StandsAt s f.before ⊎ IsAtFault e s) }
{}

/// A law: a record depends on its sixteen bytes alone.
pub fn record_is_its_bytes()
    ensures { (o : Option Record) (at : ℕ) (b c : List ℕ) → at + 16 ≤ length b → length c ≡ length b
        → ((i : ℕ) → at ≤ i → i < at + 16 → slice_index c i ≡ slice_index b i) → RecordIs o at b → RecordIs o at c }
{}

/// A law: a sector that protects its disk bears a protective record, so its disk is no MBR disk.
pub fn protective_is_borne()
    ensures { (n : ℕ) (b : List ℕ) → IsProtective n b → BearsProtective b }
{}

/// A law: a disk has one fault at most, but for the device's own.
pub fn faults_are_one()
    ensures { (d : Sectors) (x : Span) (e f : ChainError) → ChainFault d x e → ChainFault d x f → (e ≡ f) ⊎ IsDevice e ⊎ IsDevice f }
{}

/// A law: an extended boot record reads as one whatever the first sector is that its link counts from, with the same
/// logical partition.
pub fn ebr_is_rebased()
    ensures { (first g : ℕ) (at : Lba) (e : Ebr) (b : List ℕ) → EbrBytes first at e b
        → (f : Ebr) × EbrBytes g at f b × (f.logical ≡ e.logical) }
{}
