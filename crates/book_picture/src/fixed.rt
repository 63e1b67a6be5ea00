// The lines of a picture that are always the same.

/// The first line.
pub(crate) const SVG: &[u8] =
    b"<svg xmlns=\"http://www.w3.org/2000/svg\" viewBox=\"0 0 1000000 600000\" role=\"img\">\n";

/// What the picture says of itself, and its colours: by daylight and on paper, and in the dark.
pub(crate) const STYLE: &[u8] = b"\
<desc>A row for each sub-band. Its words: the airtime that begins in this hour, the limit, and the busiest hour of all
that is kept. Its bar: this hour as a part of the limit. Below the bar a mark for each transmission that begins in this
hour, at its start, as long as it is on air but never too thin to be seen, with as many cuts as its data rate has in its
number. Upright lines: every five minutes. Dashed line: the floor, before which nothing more is booked.</desc>
<style>
svg { background: #fff }
text { fill: #111; stroke: #fff; stroke-width: 3px; paint-order: stroke; font: 12px sans-serif }
.letter { font-size: 20px; font-weight: bold }
.minute { font-size: 9px; text-anchor: middle }
.right { text-anchor: end }
.grid { fill: none; stroke: #ccc; stroke-width: 700 }
.limit { fill: none; stroke: #555; stroke-width: 1000 }
.bar { fill: #555 }
.floor { fill: none; stroke: #b00020; stroke-width: 2000; stroke-dasharray: 9000 5000 }
pattern path { stroke-width: 4000 }
.r0 { stroke: #440154 }
.d0, .s0 { fill: url(#r0) }
.r1 { stroke: #3b4a9c; stroke-dasharray: 14100 1800 }
.d1, .s1 { fill: url(#r1) }
.r2 { stroke: #1f6e8c; stroke-dasharray: 8800 1800 }
.d2, .s2 { fill: url(#r2) }
.r3 { stroke: #157a6e; stroke-dasharray: 6150 1800 }
.d3, .s3 { fill: url(#r3) }
.r4 { stroke: #2f7d32; stroke-dasharray: 4560 1800 }
.d4, .s4 { fill: url(#r4) }
.r5 { stroke: #8a6100; stroke-dasharray: 3500 1800 }
.d5, .s5 { fill: url(#r5) }
.r6 { stroke: #b5380f; stroke-dasharray: 2742 1800 }
.d6, .s6 { fill: url(#r6) }
@media screen and (prefers-color-scheme: dark) {
svg { background: #14181c }
text { fill: #eee; stroke: #14181c }
.grid { stroke: #3a4046 }
.limit { stroke: #aaa }
.bar { fill: #aaa }
.floor { stroke: #ff8a8a }
.r0 { stroke: #d3a6ff }
.r1 { stroke: #a3b6ff }
.r2 { stroke: #7cc8f2 }
.r3 { stroke: #5fd9cc }
.r4 { stroke: #84dd8f }
.r5 { stroke: #e6c455 }
.r6 { stroke: #ff9d72 }
}
</style>
";

/// The cuts of the data rates, the lines, the legend and the scale of minutes.
pub(crate) const FRAME: &[u8] = b"\
<pattern id=\"r0\" patternUnits=\"userSpaceOnUse\" width=\"4000\" height=\"100000\">
<path class=\"r0\" d=\"M2000 60000v30000\"/>
</pattern>
<pattern id=\"r1\" patternUnits=\"userSpaceOnUse\" width=\"4000\" height=\"100000\">
<path class=\"r1\" d=\"M2000 60000v30000\"/>
</pattern>
<pattern id=\"r2\" patternUnits=\"userSpaceOnUse\" width=\"4000\" height=\"100000\">
<path class=\"r2\" d=\"M2000 60000v30000\"/>
</pattern>
<pattern id=\"r3\" patternUnits=\"userSpaceOnUse\" width=\"4000\" height=\"100000\">
<path class=\"r3\" d=\"M2000 60000v30000\"/>
</pattern>
<pattern id=\"r4\" patternUnits=\"userSpaceOnUse\" width=\"4000\" height=\"100000\">
<path class=\"r4\" d=\"M2000 60000v30000\"/>
</pattern>
<pattern id=\"r5\" patternUnits=\"userSpaceOnUse\" width=\"4000\" height=\"100000\">
<path class=\"r5\" d=\"M2000 60000v30000\"/>
</pattern>
<pattern id=\"r6\" patternUnits=\"userSpaceOnUse\" width=\"4000\" height=\"100000\">
<path class=\"r6\" d=\"M2000 60000v30000\"/>
</pattern>
<path class=\"grid\" d=\"M83333 0V600000M166667 0V600000M250000 0V600000M333333 0V600000M416667 0V600000M500000 0V600000
M583333 0V600000M666667 0V600000M750000 0V600000M833333 0V600000M916667 0V600000
M0 100000H1000000M0 200000H1000000M0 300000H1000000M0 400000H1000000M0 500000H1000000\"/>
<path class=\"limit\" d=\"M0 34000h1000000v16000H0zM0 134000h1000000v16000H0zM0 234000h1000000v16000H0z
M0 334000h1000000v16000H0zM0 434000h1000000v16000H0zM0 534000h1000000v16000H0z\"/>
<g transform=\"translate(640000 -38000) scale(1 .7)\">
<rect class=\"s0\" x=\"0\" y=\"60000\" width=\"12000\" height=\"30000\"/>
<rect class=\"s1\" x=\"51000\" y=\"60000\" width=\"12000\" height=\"30000\"/>
<rect class=\"s2\" x=\"102000\" y=\"60000\" width=\"12000\" height=\"30000\"/>
<rect class=\"s3\" x=\"153000\" y=\"60000\" width=\"12000\" height=\"30000\"/>
<rect class=\"s4\" x=\"204000\" y=\"60000\" width=\"12000\" height=\"30000\"/>
<rect class=\"s5\" x=\"255000\" y=\"60000\" width=\"12000\" height=\"30000\"/>
<rect class=\"s6\" x=\"306000\" y=\"60000\" width=\"12000\" height=\"30000\"/>
</g>
<g transform=\"scale(1000)\">
<text x=\"655\" y=\"19\">DR0</text>
<text x=\"706\" y=\"19\">DR1</text>
<text x=\"757\" y=\"19\">DR2</text>
<text x=\"808\" y=\"19\">DR3</text>
<text x=\"859\" y=\"19\">DR4</text>
<text x=\"910\" y=\"19\">DR5</text>
<text x=\"961\" y=\"19\">DR6</text>
<text class=\"minute\" x=\"83\" y=\"598.5\">5</text>
<text class=\"minute\" x=\"167\" y=\"598.5\">10</text>
<text class=\"minute\" x=\"250\" y=\"598.5\">15</text>
<text class=\"minute\" x=\"333\" y=\"598.5\">20</text>
<text class=\"minute\" x=\"417\" y=\"598.5\">25</text>
<text class=\"minute\" x=\"500\" y=\"598.5\">30</text>
<text class=\"minute\" x=\"583\" y=\"598.5\">35</text>
<text class=\"minute\" x=\"667\" y=\"598.5\">40</text>
<text class=\"minute\" x=\"750\" y=\"598.5\">45</text>
<text class=\"minute\" x=\"833\" y=\"598.5\">50</text>
<text class=\"minute\" x=\"917\" y=\"598.5\">55</text>
<text class=\"minute right\" x=\"998\" y=\"598.5\">60 minutes</text>
</g>
";

/// The last line.
pub(crate) const END: &[u8] = b"</svg>\n";
