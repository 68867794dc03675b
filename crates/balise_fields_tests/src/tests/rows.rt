//! Digits and what they are explained as. The lines come from a program of its own, written after the formats' page.

/// Digits of telegrams and packets, and their fields.
pub(crate) const SOUND: [(&str, &str); 18] = [
    (
        "a1007f80a03250900f82ffffffffffffffffffffffffffffffffc0",
        "telegram 210\n0 1 Q_UPDOWN 0 1\n1 7 M_VERSION 0 33\n8 1 Q_MEDIA 0 0\n9 3 N_PIG 0 0\n12 3 N_TOTAL 0 0\n15 2 M_DUP 0 0\n17 8 M_MCOUNT 0 255\n25 10 NID_C 0 5\n35 14 NID_BG 0 100\n49 1 Q_LINK 0 1\npacket\n50 8 NID_PACKET 0 66\n58 2 Q_DIR 0 1\n60 13 L_PACKET 0 31\n73 8 NID_TSR 0 5\nend\npadding 121 ffffffffffffffffffffffffffffff8\n",
    ),
    (
        "a1007f80a032505023a0a03200960444202600c9ffffffffffffc0",
        "telegram 210\n0 1 Q_UPDOWN 0 1\n1 7 M_VERSION 0 33\n8 1 Q_MEDIA 0 0\n9 3 N_PIG 0 0\n12 3 N_TOTAL 0 0\n15 2 M_DUP 0 0\n17 8 M_MCOUNT 0 255\n25 10 NID_C 0 5\n35 14 NID_BG 0 100\n49 1 Q_LINK 0 1\npacket\n50 8 NID_PACKET 0 65\n58 2 Q_DIR 0 1\n60 13 L_PACKET 0 71\n73 2 Q_SCALE 0 1\n75 8 NID_TSR 0 5\n83 15 D_TSR 0 200\n98 15 L_TSR 0 300\n113 1 Q_FRONT 0 0\n114 7 V_TSR 0 8\npacket\n121 8 NID_PACKET 0 136\n129 2 Q_DIR 0 1\n131 13 L_PACKET 0 38\n144 1 Q_NEWCOUNTRY 0 0\n145 14 NID_BG 0 100\nend\npadding 43 ffffffffffe\n",
    ),
    (
        "a1007f80a0327fd555555555555555555555555555555555555540",
        "telegram 210\n0 1 Q_UPDOWN 0 1\n1 7 M_VERSION 0 33\n8 1 Q_MEDIA 0 0\n9 3 N_PIG 0 0\n12 3 N_TOTAL 0 0\n15 2 M_DUP 0 0\n17 8 M_MCOUNT 0 255\n25 10 NID_C 0 5\n35 14 NID_BG 0 100\n49 1 Q_LINK 0 1\nend\npadding 152 55555555555555555555555555555555555555\n",
    ),
    (
        "a1007f80a03241503b204b20300c98c0819000c98cffffffffffc0",
        "telegram 210\n0 1 Q_UPDOWN 0 1\n1 7 M_VERSION 0 33\n8 1 Q_MEDIA 0 0\n9 3 N_PIG 0 0\n12 3 N_TOTAL 0 0\n15 2 M_DUP 0 0\n17 8 M_MCOUNT 0 255\n25 10 NID_C 0 5\n35 14 NID_BG 0 100\n49 1 Q_LINK 0 1\npacket\n50 8 NID_PACKET 0 5\n58 2 Q_DIR 0 1\n60 13 L_PACKET 0 118\n73 2 Q_SCALE 0 1\n75 15 D_LINK 0 300\n90 1 Q_NEWCOUNTRY 0 1\n91 10 NID_C 0 6\n101 14 NID_BG 0 100\n115 1 Q_LINKORIENTATION 0 1\n116 2 Q_LINKREACTION 0 2\n118 6 Q_LOCACC 0 12\n124 5 N_ITER 0 1\n129 15 D_LINK 1 400\n144 1 Q_NEWCOUNTRY 1 0\n145 14 NID_BG 1 100\n159 1 Q_LINKORIENTATION 1 1\n160 2 Q_LINKREACTION 1 2\n162 6 Q_LOCACC 1 12\nend\npadding 34 ffffffffc\n",
    ),
    (
        "a1007f80a032455027200020a101f403884061018064ffffffffc0",
        "telegram 210\n0 1 Q_UPDOWN 0 1\n1 7 M_VERSION 0 33\n8 1 Q_MEDIA 0 0\n9 3 N_PIG 0 0\n12 3 N_TOTAL 0 0\n15 2 M_DUP 0 0\n17 8 M_MCOUNT 0 255\n25 10 NID_C 0 5\n35 14 NID_BG 0 100\n49 1 Q_LINK 0 1\npacket\n50 8 NID_PACKET 0 21\n58 2 Q_DIR 0 1\n60 13 L_PACKET 0 78\n73 2 Q_SCALE 0 1\n75 15 D_GRADIENT 0 0\n90 1 Q_GDIR 0 1\n91 8 G_A 0 5\n99 5 N_ITER 0 1\n104 15 D_GRADIENT 1 250\n119 1 Q_GDIR 1 0\n120 8 G_A 1 3\npacket\n128 8 NID_PACKET 0 136\n136 2 Q_DIR 0 1\n138 13 L_PACKET 0 48\n151 1 Q_NEWCOUNTRY 0 1\n152 10 NID_C 0 6\n162 14 NID_BG 0 100\nend\npadding 26 ffffffc\n",
    ),
    (
        "a0007f80a0324a502ca03208480320b0001fffffffffffffffffc0",
        "telegram 210\n0 1 Q_UPDOWN 0 1\n1 7 M_VERSION 0 32\n8 1 Q_MEDIA 0 0\n9 3 N_PIG 0 0\n12 3 N_TOTAL 0 0\n15 2 M_DUP 0 0\n17 8 M_MCOUNT 0 255\n25 10 NID_C 0 5\n35 14 NID_BG 0 100\n49 1 Q_LINK 0 1\npacket\n50 8 NID_PACKET 0 41\n58 2 Q_DIR 0 1\n60 13 L_PACKET 0 89\n73 2 Q_SCALE 0 1\n75 15 D_LEVELTR 0 200\n90 3 M_LEVELTR 0 1\n93 8 NID_NTC 0 9\n101 15 L_ACKLEVELTR 0 50\n116 5 N_ITER 0 1\n121 3 M_LEVELTR 1 3\n124 15 L_ACKLEVELTR 1 0\nend\npadding 63 fffffffffffffffe\n",
    ),
    (
        "a1007f80a03246d03ea0000a060964894644207d0c41fffffffffffffffffffffffffffffffffffffffffffffffffffffffffffffffffffffffffffffffffffffffffffffffffffffffffffffffffffffffffffffffffffffffffffffffffffffffffffffffffffc",
        "telegram 830\n0 1 Q_UPDOWN 0 1\n1 7 M_VERSION 0 33\n8 1 Q_MEDIA 0 0\n9 3 N_PIG 0 0\n12 3 N_TOTAL 0 0\n15 2 M_DUP 0 0\n17 8 M_MCOUNT 0 255\n25 10 NID_C 0 5\n35 14 NID_BG 0 100\n49 1 Q_LINK 0 1\npacket\n50 8 NID_PACKET 0 27\n58 2 Q_DIR 0 1\n60 13 L_PACKET 0 125\n73 2 Q_SCALE 0 1\n75 15 D_STATIC 0 0\n90 7 V_STATIC 0 20\n97 1 Q_FRONT 0 0\n98 5 N_ITER 0 3\n103 2 Q_DIFF 0 0\n105 4 NC_CDDIFF 0 1\n109 7 V_DIFF 0 22\n116 2 Q_DIFF 1 1\n118 4 NC_DIFF 0 2\n122 7 V_DIFF 1 18\n129 2 Q_DIFF 2 2\n131 4 NC_DIFF 1 3\n135 7 V_DIFF 2 17\n142 5 N_ITER 1 1\n147 15 D_STATIC 1 500\n162 7 V_STATIC 1 24\n169 1 Q_FRONT 1 1\n170 5 N_ITER 2 0\nend\npadding 647 fffffffffffffffffffffffffffffffffffffffffffffffffffffffffffffffffffffffffffffffffffffffffffffffffffffffffffffffffffffffffffffffffffffffffffffffffffffffffffffffffe\n",
    ),
    (
        "a1007f80a03241503b204b20300c98c0819000c98c15409c8000828407d00c6d03ea0000a060964894644207d0c40528165019042401905800041408e8280c802581084807c162101300648840610180642c0041a5c8802ffffffffffffffffffffffffffffffffc",
        "telegram 830\n0 1 Q_UPDOWN 0 1\n1 7 M_VERSION 0 33\n8 1 Q_MEDIA 0 0\n9 3 N_PIG 0 0\n12 3 N_TOTAL 0 0\n15 2 M_DUP 0 0\n17 8 M_MCOUNT 0 255\n25 10 NID_C 0 5\n35 14 NID_BG 0 100\n49 1 Q_LINK 0 1\npacket\n50 8 NID_PACKET 0 5\n58 2 Q_DIR 0 1\n60 13 L_PACKET 0 118\n73 2 Q_SCALE 0 1\n75 15 D_LINK 0 300\n90 1 Q_NEWCOUNTRY 0 1\n91 10 NID_C 0 6\n101 14 NID_BG 0 100\n115 1 Q_LINKORIENTATION 0 1\n116 2 Q_LINKREACTION 0 2\n118 6 Q_LOCACC 0 12\n124 5 N_ITER 0 1\n129 15 D_LINK 1 400\n144 1 Q_NEWCOUNTRY 1 0\n145 14 NID_BG 1 100\n159 1 Q_LINKORIENTATION 1 1\n160 2 Q_LINKREACTION 1 2\n162 6 Q_LOCACC 1 12\npacket\n168 8 NID_PACKET 0 21\n176 2 Q_DIR 0 1\n178 13 L_PACKET 0 78\n191 2 Q_SCALE 0 1\n193 15 D_GRADIENT 0 0\n208 1 Q_GDIR 0 1\n209 8 G_A 0 5\n217 5 N_ITER 0 1\n222 15 D_GRADIENT 1 250\n237 1 Q_GDIR 1 0\n238 8 G_A 1 3\npacket\n246 8 NID_PACKET 0 27\n254 2 Q_DIR 0 1\n256 13 L_PACKET 0 125\n269 2 Q_SCALE 0 1\n271 15 D_STATIC 0 0\n286 7 V_STATIC 0 20\n293 1 Q_FRONT 0 0\n294 5 N_ITER 0 3\n299 2 Q_DIFF 0 0\n301 4 NC_CDDIFF 0 1\n305 7 V_DIFF 0 22\n312 2 Q_DIFF 1 1\n314 4 NC_DIFF 0 2\n318 7 V_DIFF 1 18\n325 2 Q_DIFF 2 2\n327 4 NC_DIFF 1 3\n331 7 V_DIFF 2 17\n338 5 N_ITER 1 1\n343 15 D_STATIC 1 500\n358 7 V_STATIC 1 24\n365 1 Q_FRONT 1 1\n366 5 N_ITER 2 0\npacket\n371 8 NID_PACKET 0 41\n379 2 Q_DIR 0 1\n381 13 L_PACKET 0 89\n394 2 Q_SCALE 0 1\n396 15 D_LEVELTR 0 200\n411 3 M_LEVELTR 0 1\n414 8 NID_NTC 0 9\n422 15 L_ACKLEVELTR 0 50\n437 5 N_ITER 0 1\n442 3 M_LEVELTR 1 3\n445 15 L_ACKLEVELTR 1 0\npacket\n460 8 NID_PACKET 0 65\n468 2 Q_DIR 0 1\n470 13 L_PACKET 0 71\n483 2 Q_SCALE 0 1\n485 8 NID_TSR 0 5\n493 15 D_TSR 0 200\n508 15 L_TSR 0 300\n523 1 Q_FRONT 0 0\n524 7 V_TSR 0 8\npacket\n531 8 NID_PACKET 0 66\n539 2 Q_DIR 0 1\n541 13 L_PACKET 0 31\n554 8 NID_TSR 0 5\npacket\n562 8 NID_PACKET 0 136\n570 2 Q_DIR 0 1\n572 13 L_PACKET 0 38\n585 1 Q_NEWCOUNTRY 0 0\n586 14 NID_BG 0 100\npacket\n600 8 NID_PACKET 0 136\n608 2 Q_DIR 0 1\n610 13 L_PACKET 0 48\n623 1 Q_NEWCOUNTRY 0 1\n624 10 NID_C 0 6\n634 14 NID_BG 0 100\npacket\n648 8 NID_PACKET 0 44\n656 2 Q_DIR 0 0\n658 13 L_PACKET 0 32\nrest 9 d28\npacket\n680 8 NID_PACKET 0 200\n688 2 Q_DIR 0 2\n690 13 L_PACKET 0 23\nend\npadding 119 fffffffffffffffffffffffffffffe\n",
    ),
    (
        "90007f80a03246d03ea0000a060964894644207d0c4052816501904240190580002c0041a5fffffffffffffffffffffffffffffffffffffffffffffffffffffffffffffffffffffffffffffffffffffffffffffffffffffffffffffffffffffffffffffffffffffc",
        "telegram 830\n0 1 Q_UPDOWN 0 1\n1 7 M_VERSION 0 16\n8 1 Q_MEDIA 0 0\n9 3 N_PIG 0 0\n12 3 N_TOTAL 0 0\n15 2 M_DUP 0 0\n17 8 M_MCOUNT 0 255\n25 10 NID_C 0 5\n35 14 NID_BG 0 100\n49 1 Q_LINK 0 1\npacket\n50 8 NID_PACKET 0 27\n58 2 Q_DIR 0 1\n60 13 L_PACKET 0 125\nrest 102 4000140c12c9128c8840fa1880\npacket\n175 8 NID_PACKET 0 41\n183 2 Q_DIR 0 1\n185 13 L_PACKET 0 89\nrest 66 40641090064160000\npacket\n264 8 NID_PACKET 0 44\n272 2 Q_DIR 0 0\n274 13 L_PACKET 0 32\nrest 9 d28\nend\npadding 526 fffffffffffffffffffffffffffffffffffffffffffffffffffffffffffffffffffffffffffffffffffffffffffffffffffffffffffffffffffffffffffffffffffc\n",
    ),
    (
        "a1007f80a03272200b960020d2ffffffffffffffffffffffffffc0",
        "telegram 210\n0 1 Q_UPDOWN 0 1\n1 7 M_VERSION 0 33\n8 1 Q_MEDIA 0 0\n9 3 N_PIG 0 0\n12 3 N_TOTAL 0 0\n15 2 M_DUP 0 0\n17 8 M_MCOUNT 0 255\n25 10 NID_C 0 5\n35 14 NID_BG 0 100\n49 1 Q_LINK 0 1\npacket\n50 8 NID_PACKET 0 200\n58 2 Q_DIR 0 2\n60 13 L_PACKET 0 23\npacket\n73 8 NID_PACKET 0 44\n81 2 Q_DIR 0 0\n83 13 L_PACKET 0 32\nrest 9 d28\nend\npadding 97 ffffffffffffffffffffffff8\n",
    ),
    (
        "a1007f80a0324b104c555555555555555555555555555555557fc0",
        "telegram 210\n0 1 Q_UPDOWN 0 1\n1 7 M_VERSION 0 33\n8 1 Q_MEDIA 0 0\n9 3 N_PIG 0 0\n12 3 N_TOTAL 0 0\n15 2 M_DUP 0 0\n17 8 M_MCOUNT 0 255\n25 10 NID_C 0 5\n35 14 NID_BG 0 100\n49 1 Q_LINK 0 1\npacket\n50 8 NID_PACKET 0 44\n58 2 Q_DIR 0 1\n60 13 L_PACKET 0 152\nrest 129 aaaaaaaaaaaaaaaaaaaaaaaaaaaaaaaa8\nend\n",
    ),
    (
        "packet 33 0540ec812c80c03263020640032630",
        "packet 33\n0 8 NID_PACKET 0 5\n8 2 Q_DIR 0 1\n10 13 L_PACKET 0 118\n23 2 Q_SCALE 0 1\n25 15 D_LINK 0 300\n40 1 Q_NEWCOUNTRY 0 1\n41 10 NID_C 0 6\n51 14 NID_BG 0 100\n65 1 Q_LINKORIENTATION 0 1\n66 2 Q_LINKREACTION 0 2\n68 6 Q_LOCACC 0 12\n74 5 N_ITER 0 1\n79 15 D_LINK 1 400\n94 1 Q_NEWCOUNTRY 1 0\n95 14 NID_BG 1 100\n109 1 Q_LINKORIENTATION 1 1\n110 2 Q_LINKREACTION 1 2\n112 6 Q_LOCACC 1 12\n",
    ),
    (
        "packet 33 1b40fa80002818259225191081f43100",
        "packet 33\n0 8 NID_PACKET 0 27\n8 2 Q_DIR 0 1\n10 13 L_PACKET 0 125\n23 2 Q_SCALE 0 1\n25 15 D_STATIC 0 0\n40 7 V_STATIC 0 20\n47 1 Q_FRONT 0 0\n48 5 N_ITER 0 3\n53 2 Q_DIFF 0 0\n55 4 NC_CDDIFF 0 1\n59 7 V_DIFF 0 22\n66 2 Q_DIFF 1 1\n68 4 NC_DIFF 0 2\n72 7 V_DIFF 1 18\n79 2 Q_DIFF 2 2\n81 4 NC_DIFF 1 3\n85 7 V_DIFF 2 17\n92 5 N_ITER 1 1\n97 15 D_STATIC 1 500\n112 7 V_STATIC 1 24\n119 1 Q_FRONT 1 1\n120 5 N_ITER 2 0\n",
    ),
    (
        "packet 16 1b40fa80002818259225191081f43100",
        "packet 16\n0 8 NID_PACKET 0 27\n8 2 Q_DIR 0 1\n10 13 L_PACKET 0 125\nrest 102 4000140c12c9128c8840fa1880\n",
    ),
    (
        "packet 32 2940b280c821200c82c00000",
        "packet 32\n0 8 NID_PACKET 0 41\n8 2 Q_DIR 0 1\n10 13 L_PACKET 0 89\n23 2 Q_SCALE 0 1\n25 15 D_LEVELTR 0 200\n40 3 M_LEVELTR 0 1\n43 8 NID_NTC 0 9\n51 15 L_ACKLEVELTR 0 50\n66 5 N_ITER 0 1\n71 3 M_LEVELTR 1 3\n74 15 L_ACKLEVELTR 1 0\n",
    ),
    (
        "packet 16 2c0041a5",
        "packet 16\n0 8 NID_PACKET 0 44\n8 2 Q_DIR 0 0\n10 13 L_PACKET 0 32\nrest 9 d28\n",
    ),
    (
        "packet 33 c8802e",
        "packet 33\n0 8 NID_PACKET 0 200\n8 2 Q_DIR 0 2\n10 13 L_PACKET 0 23\n",
    ),
    (
        "packet 33 42403E0A",
        "packet 33\n0 8 NID_PACKET 0 66\n8 2 Q_DIR 0 1\n10 13 L_PACKET 0 31\n23 8 NID_TSR 0 5\n",
    ),
];

/// Digits that are refused, and their fields up to the fault.
pub(crate) const FAULTY: [(&str, &str); 31] = [
    ("", "fault 3 BadLength - 0 length\n"),
    (
        "a1007f80a0327fffffffffffffffffffffffffffffffffffffffg0",
        "fault 2 BadHex - 208 digit\n",
    ),
    (
        "a1007f80a0327ffffffffffffffffffffffffffffffffffffffff",
        "fault 2 BadHex - 212 digit\n",
    ),
    (
        "a1007f80a0327fffffffffffffffffffffffffffffffffffffff",
        "fault 3 BadLength - 208 length\n",
    ),
    (
        "a1007f80a0327fffffffffffffffffffffffffffffffffffffffc1",
        "fault 4 SpareBits - 215 zero\n",
    ),
    ("packet x 42", "fault 2 BadHex - 0 digit\n"),
    ("packet 33 ", "fault 2 BadHex - 0 digit\n"),
    (" plan 1", "fault 2 BadHex - 0 digit\n"),
    ("plan 2", "fault 2 BadHex - 0 digit\n"),
    (
        "21007f80a0327fffffffffffffffffffffffffffffffffffffffc0",
        "telegram 210\nfault 5 NotABalise - 0 Q_UPDOWN\n",
    ),
    (
        "a1807f80a0327fffffffffffffffffffffffffffffffffffffffc0",
        "telegram 210\n0 1 Q_UPDOWN 0 1\n1 7 M_VERSION 0 33\nfault 5 NotABalise - 8 Q_MEDIA\n",
    ),
    (
        "a1007f80a0324b104c8000000000000000000000000000000000",
        "fault 3 BadLength - 208 length\n",
    ),
    (
        "a1007f80a03252d00b7fffffffffffffffffffffffffffffffffc0",
        "telegram 210\n0 1 Q_UPDOWN 0 1\n1 7 M_VERSION 0 33\n8 1 Q_MEDIA 0 0\n9 3 N_PIG 0 0\n12 3 N_TOTAL 0 0\n15 2 M_DUP 0 0\n17 8 M_MCOUNT 0 255\n25 10 NID_C 0 5\n35 14 NID_BG 0 100\n49 1 Q_LINK 0 1\npacket\n50 8 NID_PACKET 0 75\n58 2 Q_DIR 0 1\n60 13 L_PACKET 0 22\nfault 7 PacketCut 0 73 another\n",
    ),
    (
        "a1007f80a03250900f82a13f40ffffffffffffffffffffffffffc0",
        "telegram 210\n0 1 Q_UPDOWN 0 1\n1 7 M_VERSION 0 33\n8 1 Q_MEDIA 0 0\n9 3 N_PIG 0 0\n12 3 N_TOTAL 0 0\n15 2 M_DUP 0 0\n17 8 M_MCOUNT 0 255\n25 10 NID_C 0 5\n35 14 NID_BG 0 100\n49 1 Q_LINK 0 1\npacket\n50 8 NID_PACKET 0 66\n58 2 Q_DIR 0 1\n60 13 L_PACKET 0 31\n73 8 NID_TSR 0 5\npacket\n81 8 NID_PACKET 0 66\n89 2 Q_DIR 0 1\n91 13 L_PACKET 0 8000\nfault 7 PacketCut 1 104 another\n",
    ),
    (
        "a1007f80a0324b104a000000000000000000000000000000010940",
        "telegram 210\n0 1 Q_UPDOWN 0 1\n1 7 M_VERSION 0 33\n8 1 Q_MEDIA 0 0\n9 3 N_PIG 0 0\n12 3 N_TOTAL 0 0\n15 2 M_DUP 0 0\n17 8 M_MCOUNT 0 255\n25 10 NID_C 0 5\n35 14 NID_BG 0 100\n49 1 Q_LINK 0 1\npacket\n50 8 NID_PACKET 0 44\n58 2 Q_DIR 0 1\n60 13 L_PACKET 0 148\nrest 125 00000000000000000000000000000000\npacket\n198 8 NID_PACKET 0 66\n206 2 Q_DIR 0 1\nfault 7 PacketCut 1 208 L_PACKET\n",
    ),
    (
        "a1007f80a03250900f828000000000000000000000000000000000",
        "telegram 210\n0 1 Q_UPDOWN 0 1\n1 7 M_VERSION 0 33\n8 1 Q_MEDIA 0 0\n9 3 N_PIG 0 0\n12 3 N_TOTAL 0 0\n15 2 M_DUP 0 0\n17 8 M_MCOUNT 0 255\n25 10 NID_C 0 5\n35 14 NID_BG 0 100\n49 1 Q_LINK 0 1\npacket\n50 8 NID_PACKET 0 66\n58 2 Q_DIR 0 1\n60 13 L_PACKET 0 31\n73 8 NID_TSR 0 5\npacket\n81 8 NID_PACKET 0 0\nfault 9 PacketZero 1 89 another\n",
    ),
    (
        "a1007f80a03250901002ffffffffffffffffffffffffffffffffc0",
        "telegram 210\n0 1 Q_UPDOWN 0 1\n1 7 M_VERSION 0 33\n8 1 Q_MEDIA 0 0\n9 3 N_PIG 0 0\n12 3 N_TOTAL 0 0\n15 2 M_DUP 0 0\n17 8 M_MCOUNT 0 255\n25 10 NID_C 0 5\n35 14 NID_BG 0 100\n49 1 Q_LINK 0 1\npacket\n50 8 NID_PACKET 0 66\n58 2 Q_DIR 0 1\n60 13 L_PACKET 0 32\n73 8 NID_TSR 0 5\nfault 8 LayoutMismatch 0 81 end\n",
    ),
    (
        "a1007f80a03250900f05ffffffffffffffffffffffffffffffffc0",
        "telegram 210\n0 1 Q_UPDOWN 0 1\n1 7 M_VERSION 0 33\n8 1 Q_MEDIA 0 0\n9 3 N_PIG 0 0\n12 3 N_TOTAL 0 0\n15 2 M_DUP 0 0\n17 8 M_MCOUNT 0 255\n25 10 NID_C 0 5\n35 14 NID_BG 0 100\n49 1 Q_LINK 0 1\npacket\n50 8 NID_PACKET 0 66\n58 2 Q_DIR 0 1\n60 13 L_PACKET 0 30\nfault 8 LayoutMismatch 0 73 NID_TSR\n",
    ),
    (
        "a1007f80a03246d02120000a03800fffffffffffffffffffffffc0",
        "telegram 210\n0 1 Q_UPDOWN 0 1\n1 7 M_VERSION 0 33\n8 1 Q_MEDIA 0 0\n9 3 N_PIG 0 0\n12 3 N_TOTAL 0 0\n15 2 M_DUP 0 0\n17 8 M_MCOUNT 0 255\n25 10 NID_C 0 5\n35 14 NID_BG 0 100\n49 1 Q_LINK 0 1\npacket\n50 8 NID_PACKET 0 27\n58 2 Q_DIR 0 1\n60 13 L_PACKET 0 66\n73 2 Q_SCALE 0 1\n75 15 D_STATIC 0 0\n90 7 V_STATIC 0 20\n97 1 Q_FRONT 0 0\n98 5 N_ITER 0 1\n103 2 Q_DIFF 0 3\nfault 8 LayoutMismatch 0 105 another\n",
    ),
    ("packet 33 4", "fault 2 BadHex - 4 digit\n"),
    ("packet 33 4z", "fault 2 BadHex - 4 digit\n"),
    (
        "packet 33 42",
        "packet 33\n0 8 NID_PACKET 0 66\nfault 7 PacketCut 0 8 Q_DIR\n",
    ),
    (
        "packet 33 00",
        "packet 33\n0 8 NID_PACKET 0 0\nfault 9 PacketZero 0 8 another\n",
    ),
    (
        "packet 33 ff",
        "packet 33\n0 8 NID_PACKET 0 255\nfault 8 LayoutMismatch 0 8 another\n",
    ),
    (
        "packet 33 42403e",
        "packet 33\n0 8 NID_PACKET 0 66\n8 2 Q_DIR 0 1\n10 13 L_PACKET 0 31\nfault 7 PacketCut 0 23 another\n",
    ),
    (
        "packet 33 2c002c0000",
        "packet 33\n0 8 NID_PACKET 0 44\n8 2 Q_DIR 0 0\n10 13 L_PACKET 0 22\nfault 7 PacketCut 0 23 another\n",
    ),
    ("packet 33 42403e0a00", "fault 3 BadLength - 40 length\n"),
    ("packet 33 42403e0b", "fault 4 SpareBits - 31 zero\n"),
    (
        "packet 33 4240400a",
        "packet 33\n0 8 NID_PACKET 0 66\n8 2 Q_DIR 0 1\n10 13 L_PACKET 0 32\n23 8 NID_TSR 0 5\nfault 8 LayoutMismatch 0 31 end\n",
    ),
    (
        "packet 33 42403c08",
        "packet 33\n0 8 NID_PACKET 0 66\n8 2 Q_DIR 0 1\n10 13 L_PACKET 0 30\nfault 8 LayoutMismatch 0 23 NID_TSR\n",
    ),
    (
        "a1007f80a0324b104e8000000000000000000000000000000001c0",
        "telegram 210\n0 1 Q_UPDOWN 0 1\n1 7 M_VERSION 0 33\n8 1 Q_MEDIA 0 0\n9 3 N_PIG 0 0\n12 3 N_TOTAL 0 0\n15 2 M_DUP 0 0\n17 8 M_MCOUNT 0 255\n25 10 NID_C 0 5\n35 14 NID_BG 0 100\n49 1 Q_LINK 0 1\npacket\n50 8 NID_PACKET 0 44\n58 2 Q_DIR 0 1\n60 13 L_PACKET 0 157\nrest 134 0000000000000000000000000000000000\nfault 6 NoEnd 1 207 NID_PACKET\n",
    ),
];
