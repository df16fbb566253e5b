//! Device types.

ghost use Rattle.std.specs.Prelude.{◌≡◌};
ghost use Rattle.dc_records.specs.Media.{medium_name};

use crate::names::codes::name_in;

/// The names of device types (EN 13757-3, device type identification; OMS Volume 2).
pub const MEDIA: [(u8, &str); 49] = [
    (0x00, "other"),
    (0x01, "oil"),
    (0x02, "electricity"),
    (0x03, "gas"),
    (0x04, "heat-outlet"),
    (0x05, "steam"),
    (0x06, "warm-water"),
    (0x07, "water"),
    (0x08, "heat-cost-allocator"),
    (0x09, "compressed-air"),
    (0x0A, "cooling-outlet"),
    (0x0B, "cooling-inlet"),
    (0x0C, "heat-inlet"),
    (0x0D, "heat-and-cooling"),
    (0x0E, "bus-or-system"),
    (0x0F, "unknown"),
    (0x10, "irrigation-water"),
    (0x11, "water-data-logger"),
    (0x12, "gas-data-logger"),
    (0x13, "gas-converter"),
    (0x14, "calorific-value"),
    (0x15, "hot-water"),
    (0x16, "cold-water"),
    (0x17, "dual-water"),
    (0x18, "pressure"),
    (0x19, "ad-converter"),
    (0x1A, "smoke-alarm"),
    (0x1B, "room-sensor"),
    (0x1C, "gas-detector"),
    (0x1F, "reserved"),
    (0x20, "breaker"),
    (0x21, "valve"),
    (0x24, "reserved"),
    (0x25, "customer-unit"),
    (0x27, "reserved"),
    (0x28, "waste-water"),
    (0x29, "garbage"),
    (0x2A, "carbon-dioxide"),
    (0x2F, "reserved"),
    (0x30, "service-tool"),
    (0x31, "communication-controller"),
    (0x32, "unidirectional-repeater"),
    (0x33, "bidirectional-repeater"),
    (0x35, "reserved"),
    (0x36, "radio-converter-system-side"),
    (0x37, "radio-converter-meter-side"),
    (0x38, "bus-converter-meter-side"),
    (0xFE, "reserved"),
    (0xFF, "wildcard"),
];

/// The name of a device type (EN 13757-3; OMS Volume 2).
pub fn medium_name(kind: u8) -> &'static str
    ensures { result.now ≡ medium_name kind }
{
    name_in(&MEDIA, kind)
}
