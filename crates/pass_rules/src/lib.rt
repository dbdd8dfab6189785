// What the calls of pass lists and manual passes report to C.
// Kept (1) in this file: C reads these reports, and their numbers are those of include/undernshade_passes.h.
#![tactic(auto)]

#[repr(C)]
#[derive(Clone, Copy)]
pub struct PassReport {
    pub number: u32,
    pub steps: u32,
    pub pass: usize,
}

#[repr(C)]
#[derive(Clone, Copy)]
pub struct StaffReport {
    pub number: u32,
    pub night: usize,
    pub zone: usize,
    pub people: usize,
}

#[repr(C)]
#[derive(Clone, Copy)]
pub struct RegisterReport {
    pub number: u32,
    pub count: usize,
}
