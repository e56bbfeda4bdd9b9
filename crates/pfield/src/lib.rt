// The P-field: where it stands, which codes it may name, and the layout that it gives. Nothing else looks at its bits.
#![tactic(auto)]

ghost use Rattle.std.specs.Prelude.{◌≡◌, eqb};
ghost use Rattle.base.specs.Said.{said};
ghost use Rattle.pfield.specs.PField.{allows, bit4, laid, cds_laid, ccs_laid, headed_of};
ghost use Rattle.pfield.specs.Inner.{Identifies, number_of, cuc_from};

use base::Refusal;

// A P-field as it is written: its one octet.
#[derive(Clone, Copy, Debug, PartialEq, Eq)]
pub struct PField {
    pub octet: u8,
}

// Where the P-field is: in front of the bytes, or supplied apart. Not an Option, whose None would not say where.
#[derive(Clone, Copy, Debug, PartialEq, Eq)]
pub enum Preamble {
    Front,
    Given(PField),
}

// The identifications that are allowed: those of all codes, or CUC's alone, as in a listing.
#[derive(Clone, Copy, Debug, PartialEq, Eq)]
pub enum Codes {
    All,
    Cuc,
}

// What a P-field and the caller's epoch say of the T-field.
#[derive(Clone, Copy)]
pub enum Layout {
    Cuc(cuc::Layout),
    Cds(cds::Layout),
    Ccs(ccs::Layout),
}

// A layout, and where the T-field starts.
#[derive(Clone, Copy)]
pub struct Head {
    pub layout: Layout,
    pub start: usize,
}

// Reads the P-field of some bytes, from their front or supplied apart. In place, by count: hz_read_binary under CUC takes
// half the instructions.
#[inline(always)]
#[tactic(auto, unfolding(crate::specs::PField::headed_of))]
pub fn read(s: &[u8], p: Preamble, codes: Codes, epoch: i64) -> Result<Head, Refusal>
    ensures { said result ≡ headed_of codes s.now p epoch }
{
    let (field, start) = match p {
        Preamble::Given(field) => (field, 0),
        Preamble::Front => {
            let octet = *s.first().ok_or(Refusal::Short)?;
            (PField { octet }, 1)
        }
    };
    Ok(Head {
        layout: lay(field, codes, epoch)?,
        start,
    })
}

// The layout that a P-field gives. In place, by count: its Result in memory costs hz_receiver_make half as much again.
#[inline(always)]
#[tactic(auto, using(crate::proofs::Names::none_allowed), unfolding(crate::specs::PField::laid, crate::specs::PField::laid_as, crate::specs::PField::cuc_laid, base::specs::Parts::within))]
pub fn lay(p: PField, codes: Codes, epoch: i64) -> Result<Layout, Refusal>
    ensures { said result ≡ laid codes p epoch }
{
    let id = Identification::try_from(p)?;
    if !codes.allow(id) {
        return Err(Refusal::Identification);
    }
    // bit 0, the extension
    if 128 <= p.octet {
        return Err(Refusal::Unsupported);
    }
    match id {
        Identification::CucFrom1958 => p.cuc(0),
        Identification::CucFromEpoch => p.cuc(epoch),
        Identification::Cds => p.cds(epoch),
        Identification::Ccs => p.ccs(),
    }
}

// What bits 1 to 3 name: a code, and with CUC where its epoch is.
#[derive(Clone, Copy)]
enum Identification {
    CucFrom1958,
    CucFromEpoch,
    Cds,
    Ccs,
}

impl TryFrom<PField> for Identification {
    type Error = Refusal;

    ghost try_from_gives = { λ p r. Identifies p.octet r };

    #[tactic(auto, unfolding(crate::specs::PField::allows))]
    fn try_from(p: PField) -> Result<Identification, Refusal> {
        match p.octet / 16 % 8 {
            1 => Ok(Identification::CucFrom1958),
            2 => Ok(Identification::CucFromEpoch),
            4 => Ok(Identification::Cds),
            5 => Ok(Identification::Ccs),
            _ => Err(Refusal::Identification),
        }
    }
}

impl Codes {
    #[tactic(auto, unfolding(crate::specs::PField::allows))]
    fn allow(self, id: Identification) -> bool
        ensures { result ≡ allows self (number_of id) }
    {
        match self {
            Codes::All => true,
            Codes::Cuc => matches!(
                id,
                Identification::CucFrom1958 | Identification::CucFromEpoch
            ),
        }
    }
}

// The layouts of each code, by bits 4 to 7.
impl PField {
    fn cuc(self, epoch: i64) -> Result<Layout, Refusal>
        ensures { said result ≡ cuc_from self.octet epoch }
    {
        if !cuc::is_epoch(epoch) {
            return Err(Refusal::Range);
        }
        Ok(Layout::Cuc(cuc::Layout {
            epoch,
            coarse: usize::from(self.octet / 4 % 4) + 1,
            fine: usize::from(self.octet % 4),
        }))
    }

    #[tactic(auto, unfolding(crate::specs::PField::cds_laid, base::specs::Parts::within))]
    fn cds(self, epoch: i64) -> Result<Layout, Refusal>
        ensures { said result ≡ cds_laid self.octet epoch }
    {
        let part = match self.octet % 4 {
            0 => 0,
            1 => 2,
            2 => 4,
            _ => return Err(Refusal::Unsupported),
        };
        let epoch = if self.bit4() { epoch } else { 0 };
        if !cds::is_epoch(epoch) {
            return Err(Refusal::Range);
        }
        Ok(Layout::Cds(cds::Layout {
            epoch,
            day: usize::from(self.octet / 4 % 2) + 2,
            part,
        }))
    }

    #[tactic(auto, unfolding(crate::specs::PField::ccs_laid))]
    fn ccs(self) -> Result<Layout, Refusal>
        ensures { said result ≡ ccs_laid self.octet }
    {
        let segments = usize::from(self.octet % 8);
        if segments == 7 {
            return Err(Refusal::Unsupported);
        }
        Ok(Layout::Ccs(ccs::Layout {
            ordinal: self.bit4(),
            segments,
        }))
    }

    fn bit4(self) -> bool
        ensures { result ≡ eqb (bit4 self.octet) 1 }
    {
        self.octet / 8 % 2 == 1
    }
}
