//! How the parts of a picture look, and what says it.

/// The classes of the parts. The fills of bars are told apart by their brightness, too.
pub const STYLE: &str = "<style>
svg{background:#fff}
text{font-family:sans-serif;font-size:12px;fill:#222}
.title{font-size:15px;font-weight:bold}
.mark{text-anchor:middle;font-size:11px}
.dark{text-anchor:middle}
.light{text-anchor:middle;fill:#fff;font-weight:bold}
.rule{fill:none;stroke:#ddd}
.axis{fill:none;stroke:#444}
.run{fill:#d6e6f5;stroke:#444}
.again{fill:#8c1d18;stroke:#000;stroke-width:2}
.merge{fill:#9ccc8f;stroke:#444}
.correct{fill:#6b6bb5;stroke:#444}
.back{fill:#fff;stroke:#444;stroke-dasharray:3 3}
</style>
";

/// What stands above the batches.
pub const LEGEND_TEXT: &str =
    "<text x='10' y='22'>A bar goes from a worker's claim of a job to the end of the claim. The axis counts entries. Point at a bar to read what it was.</text>
<rect class='run' x='10' y='40' width='36' height='20'/><text class='dark' x='28' y='54'>1</text>
<text x='52' y='54'>program 1 runs</text>
<rect class='again' x='150' y='40' width='36' height='20'/><text class='light' x='168' y='54'>1</text>
<text x='192' y='54'>it runs again</text>
<rect class='merge' x='280' y='40' width='36' height='20'/>
<text x='322' y='54'>effects are merged</text>
<rect class='correct' x='445' y='40' width='36' height='20'/>
<text x='487' y='54'>a correction</text>
<rect class='back' x='575' y='40' width='36' height='20'/>
<text x='617' y='54'>given back</text>
";
