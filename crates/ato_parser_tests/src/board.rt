use crate::edits::{At, GOOD, NEXT};

/// A regulator with its capacitors.
pub(crate) const REGULATOR: &str = "#pragma experiment(\"BRIDGE_CONNECT\")
import ElectricPower, Capacitor
component LDO33:
    \"\"\"Fixed 3.3 V regulator.\"\"\"
    footprint = \"SOT-23-5\"
    signal vin ~ pin 1; signal gnd ~ pin 2
    signal en ~ pin 3; signal vout ~ pin 5
    vin ~ en
module Regulator:
    power_in = new ElectricPower
    power_out = new ElectricPower
    ldo = new LDO33
    c_in = new Capacitor
    c_out = new Capacitor
    c_in.package = \"0402\"
    c_in.capacitance = 1uF +/- 20%
    c_out.capacitance = 1uF +/- 20%
    power_in.hv ~ ldo.vin; power_in.lv ~ ldo.gnd
    power_out.hv ~ ldo.vout; power_out.lv ~ ldo.gnd
    power_in.hv ~ c_in.p1; power_in.lv ~ c_in.p2
    power_out.hv ~ c_out.p1; power_out.lv ~ c_out.p2
    power_out.voltage = 3.3V +/- 2%
    assert power_in.voltage within 4.3V to 6V
    assert c_in.max_voltage >= power_in.voltage
";

/// A sensor with its capacitors.
pub(crate) const SENSOR: &str = "import ElectricPower, I2C, Capacitor
component Chip:
    signal vdd ~ pin 1; signal gnd ~ pin 2
    signal sda ~ pin 3; signal scl ~ pin 4
module Sensor:
    power = new ElectricPower
    i2c = new I2C
    chip = new Chip
    c1 = new Capacitor; c2 = new Capacitor
    c1.capacitance = 100nF +/- 20%
    c2.capacitance = 100nF +/- 20%
    power.hv ~ chip.vdd; power.lv ~ chip.gnd
    i2c.sda.line ~ chip.sda; i2c.scl.line ~ chip.scl
    power.hv ~ c1.p1; power.lv ~ c1.p2
    power.hv ~ c2.p1; power.lv ~ c2.p2
    assert power.voltage within 1.7V to 3.6V
";

/// A board with both.
pub(crate) const MAIN: &str = "from \"regulator.ato\" import Regulator
import Sensor from \"sensor.ato\"
import ElectricPower, Resistor, LED
module Board:
    usb = new ElectricPower
    usb.voltage = 5V +/- 5%
    reg = new Regulator; sensor = new Sensor
    usb ~ reg.power_in
    reg.power_out ~ sensor.power
    pull_scl = new Resistor; pull_sda = new Resistor
    pull_scl.resistance = 4.7kohm +/- 5%
    pull_sda.resistance = 4.7kohm +/- 5%
    pull_scl.p1 ~ sensor.i2c.scl.line; pull_scl.p2 ~ reg.power_out.hv
    pull_sda.p1 ~ sensor.i2c.sda.line; pull_sda.p2 ~ reg.power_out.hv
    led = new LED; r_led = new Resistor
    r_led.p1 ~ reg.power_out.hv; r_led.p2 ~ led.anode
    led.cathode ~ reg.power_out.lv
    led_current: A
    assert led_current is (reg.power_out.voltage - led.forward_voltage) / r_led.resistance
    assert led_current within 2mA to 10mA
";

/// The tokens of the board behind which the fault stands elsewhere than at the token that follows, where
/// they are left out, and where it stands.
pub(crate) const DROPPED: &[(usize, At)] = &[
    (0, NEXT),
    (24, GOOD),
    (31, NEXT),
    (32, GOOD),
    (35, GOOD),
    (39, GOOD),
    (44, GOOD),
    (63, GOOD),
    (68, GOOD),
    (75, NEXT),
    (76, GOOD),
    (79, GOOD),
    (85, NEXT),
    (86, GOOD),
    (89, GOOD),
    (137, GOOD),
    (142, GOOD),
    (177, NEXT),
    (180, Some(9)),
    (190, Some(4)),
    (196, NEXT),
    (200, GOOD),
    (203, GOOD),
];

/// The same where they are doubled, and the fault does not stand at the second one.
pub(crate) const DOUBLED: &[(usize, At)] = &[(180, Some(16)), (186, Some(2))];

/// The same where they are exchanged with the one behind them, and the fault does not stand at that one.
pub(crate) const EXCHANGED: &[(usize, At)] = &[
    (0, NEXT),
    (24, NEXT),
    (31, NEXT),
    (32, NEXT),
    (35, NEXT),
    (39, NEXT),
    (44, NEXT),
    (63, NEXT),
    (68, NEXT),
    (75, NEXT),
    (76, NEXT),
    (79, NEXT),
    (85, NEXT),
    (86, NEXT),
    (89, NEXT),
    (137, NEXT),
    (142, NEXT),
    (177, NEXT),
    (180, NEXT),
    (190, NEXT),
    (196, NEXT),
    (200, NEXT),
    (203, Some(2)),
];

/// The same where `)` stands in place of them, and the fault does not stand there.
pub(crate) const CLOSED: &[(usize, At)] = &[
    (182, NEXT),
    (184, NEXT),
    (186, NEXT),
    (188, NEXT),
    (190, GOOD),
];
