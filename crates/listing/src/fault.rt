// The listing of a fault.
pub mod printing;

use texts::fault::Told;

// The text in which a fault stands.
#[derive(Clone, Copy)]
pub enum Source {
    Rules,
    Log,
}

#[derive(Clone, Copy)]
pub struct FaultListing {
    pub source: Source,
    pub told: Told,
}
