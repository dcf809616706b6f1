/// A subscription file of three stations with five lines: 2080010 with a1; 2080020 with b1, which accepts fast
/// select; and 2080030 with h1, h2, which has an address of its own, and h3.
pub const THREE_STATIONS: &str = r#"[[station]]
address = "2080010"
line = [{ name = "a1", port = 19981 }]
[[station]]
address = "2080020"
fast_select = true
line = [{ name = "b1", port = 19982 }]
[[station]]
address = "2080030"
line = [{ name = "h1", port = 19983 }, { name = "h2", port = 19984, address = "2080032" }, { name = "h3", port = 19985 }]
"#;
