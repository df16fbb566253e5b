//! Quantities, their units and the data fields in which they come.

ghost use Rattle.std.specs.Prelude.{◌≡◌};
ghost use Rattle.dc_units.specs.Quantity.{unit_of, is_time_point, takes, is_integer, is_bcd};

/// What a record's value is of, with the unit in which the table of codes gives it (EN 13757-3).
#[derive(Clone, Copy)]
pub enum Quantity {
    EnergyWattHour,
    EnergyJoule,
    EnergyMegawattHour,
    EnergyGigajoule,
    Volume,
    Mass,
    PowerWatt,
    PowerJoulePerHour,
    VolumeFlowPerHour,
    VolumeFlowPerMinute,
    VolumeFlowPerSecond,
    MassFlow,
    FlowTemperature,
    ReturnTemperature,
    TemperatureDifference,
    ExternalTemperature,
    Pressure,
    /// A time point: a day.
    Date,
    /// A time point: a minute of a day.
    DateTime,
    HeatCostAllocator,
    /// Error flags, one bit each; their meaning is the maker's.
    ErrorFlags,
}

impl Quantity {
    /// The printed unit, empty for time points.
    pub fn unit(&self) -> &'static str
        ensures { result.now ≡ unit_of self.now }
    {
        match self {
            Quantity::EnergyWattHour => "Wh",
            Quantity::EnergyJoule => "J",
            Quantity::EnergyMegawattHour => "MWh",
            Quantity::EnergyGigajoule => "GJ",
            Quantity::Volume => "m3",
            Quantity::Mass => "kg",
            Quantity::PowerWatt => "W",
            Quantity::PowerJoulePerHour => "J/h",
            Quantity::VolumeFlowPerHour => "m3/h",
            Quantity::VolumeFlowPerMinute => "m3/min",
            Quantity::VolumeFlowPerSecond => "m3/s",
            Quantity::MassFlow => "kg/h",
            Quantity::FlowTemperature => "C-flow",
            Quantity::ReturnTemperature => "C-return",
            Quantity::TemperatureDifference => "K",
            Quantity::ExternalTemperature => "C-external",
            Quantity::Pressure => "bar",
            Quantity::Date | Quantity::DateTime => "",
            Quantity::HeatCostAllocator => "HCA",
            Quantity::ErrorFlags => "flags",
        }
    }

    /// Whether it is a time point: a date, or a date and time.
    pub fn is_time_point(&self) -> bool
        ensures { result ≡ is_time_point self.now }
    {
        matches!(self, Quantity::Date | Quantity::DateTime)
    }

    /// Whether it comes in this data field.
    #[inline(always)]
    pub(crate) fn takes(&self, field: u8) -> bool
        ensures { result ≡ takes self.now field }
    {
        match self {
            Quantity::Date => field == 2,
            Quantity::DateTime => field == 4,
            Quantity::ErrorFlags => is_integer(field),
            _ => is_integer(field) || is_bcd(field),
        }
    }
}

/// Whether a data field has whole numbers in two's complement.
#[inline(always)]
pub(crate) fn is_integer(field: u8) -> bool
    ensures { result ≡ is_integer field }
{
    (1..=7).contains(&field) && field != 5
}

/// Whether a data field has numbers in BCD.
#[inline(always)]
pub(crate) fn is_bcd(field: u8) -> bool
    ensures { result ≡ is_bcd field }
{
    (9..=0xE).contains(&field) && field != 0xD
}
