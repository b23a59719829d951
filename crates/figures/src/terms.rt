// The figures on levels and on each term by itself.
// Speeds go through the range that they are brought into.

use crate::print;
use road::{Term, Traffic};

// Entries of Z.
fn decades(rt: &HostRuntime) {
    let names = b"Z[0]: \nZ[1]: \nZ[500]: \nZ[999]: \n";
    print::number(rt, names, 0, level::table::step(0));
    print::number(rt, names, 1, level::table::step(1));
    print::number(rt, names, 2, level::table::step(500));
    print::number(rt, names, 3, level::table::step(999));
}

// Energies of levels below zero.
fn faint(rt: &HostRuntime) {
    let names = b"E(-1): \nE(-999): \nE(-1000): \nE(-1001): \nE(-6000): \nE(-6001): \n";
    print::number(rt, names, 0, level::energy_at(0, 1));
    print::number(rt, names, 1, level::energy_at(0, 999));
    print::number(rt, names, 2, level::energy_at(0, 1000));
    print::number(rt, names, 3, level::energy_at(0, 1001));
    print::number(rt, names, 4, level::energy_at(0, 6000));
    print::number(rt, names, 5, level::energy_at(0, 6001));
}

// Levels of numbers, and of an energy that has none.
fn levels(rt: &HostRuntime) {
    let names = b"lv(1): \nlv(2): \nlv(1000): \nLV(999999): \n";
    print::number(rt, names, 0, u64::from(level::lv(1)));
    print::number(rt, names, 1, u64::from(level::lv(2)));
    print::number(rt, names, 2, u64::from(level::lv(1000)));
    print::heard(rt, names, 3, level::level(999999));
}

// One car, one truck, and the truck above the car.
fn speeds(rt: &HostRuntime) {
    let names = b"v 100: LP \nv 50: LP \nu 80: LT \nu 100: LT \nu 30, v 130: D \n";
    print::number(rt, names, 0, u64::from(emission::car_level(100)));
    print::number(rt, names, 1, u64::from(emission::car_level(50)));
    print::number(rt, names, 2, u64::from(emission::truck_level(80)));
    print::number(
        rt,
        names,
        3,
        u64::from(emission::truck_level(emission::truck_speed(100))),
    );
    let gain = Term {
        up: emission::truck_level(30),
        down: emission::car_level(130),
    };
    print::level(rt, names, 4, gain);
}

// The level at 25 m, of all the traffic and of half of it.
fn traffic(rt: &HostRuntime) {
    let names = b"M 1000000, p 0: L25 \nM 1000000, p 0, halved: L25 \nM 1000000, p 200: L25 \n";
    let cars = Traffic { m: 1000000, p: 0 };
    let mixed = Traffic { m: 1000000, p: 200 };
    print::level(rt, names, 0, emission::traffic(0, cars));
    print::level(rt, names, 1, emission::traffic(1, cars));
    print::level(rt, names, 2, emission::traffic(0, mixed));
}

// What a gradient adds, and what parallel walls add, by height and spacing.
fn additions(rt: &HostRuntime) {
    let names =
        b"gradient 50: \ngradient 51: \ngradient 120: \nwalls 600/1200: \nwalls 1200/1200: \nwalls 1200/1200, absorbing: \n";
    print::number(rt, names, 0, u64::from(emission::gradient(50)));
    print::number(rt, names, 1, u64::from(emission::gradient(51)));
    print::number(rt, names, 2, u64::from(emission::gradient(120)));
    print::number(rt, names, 3, u64::from(emission::walls(1, 600, 1200)));
    print::number(rt, names, 4, u64::from(emission::walls(1, 1200, 1200)));
    print::number(rt, names, 5, u64::from(emission::walls(2, 1200, 1200)));
}

// All of them.
pub fn all(rt: &HostRuntime) {
    decades(rt);
    faint(rt);
    levels(rt);
    speeds(rt);
    traffic(rt);
    additions(rt);
}
