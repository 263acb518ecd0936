// The settings of a receiver that restores order: the least waiting time, packets and octets for 95 percent of the first arrivals, and
// for all.
use metrics::{SampleNeeds, greatest_needs};
use rfc4737::Measure;

// A setting: one size in each measure.
#[derive(Clone, Copy)]
pub(crate) struct Sizes {
    pub(crate) time: u64,
    pub(crate) packets: u64,
    pub(crate) octets: u64,
}

// The setting for all first arrivals: the greatest needs.
impl From<SampleNeeds> for Sizes {
    fn from(needs: SampleNeeds) -> Sizes {
        Sizes {
            time: needs.time,
            packets: needs.packets,
            octets: needs.octets,
        }
    }
}

// The two settings of a sample.
#[derive(Clone, Copy)]
pub(crate) struct Settings {
    pub(crate) most: Sizes,
    pub(crate) all: Sizes,
}

// Returns the settings of a sample.
pub(crate) fn settings_of(file: &[u8]) -> Settings {
    let size_for_most = |measure| buffering::least(file, measure, 95, 100).size;
    Settings {
        most: Sizes {
            time: size_for_most(Measure::Time),
            packets: size_for_most(Measure::Packets),
            octets: size_for_most(Measure::Octets),
        },
        all: Sizes::from(greatest_needs(file)),
    }
}
