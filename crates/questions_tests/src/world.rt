// A stored world, as examples/make_world made it: each file, and the rows of its signatures.

// The root that is pinned.
pub(crate) const ROOT: &str = r#"{
 "signatures": [
  {
   "keyid": "b836234bd8796b0d6d247653e61b03c31208543221483cbf948477b7c9d674a7",
   "sig": "30450221009433762b17afb7ee024ac3a5644f86dbcce772c12b16e122d972c0e7d492ec2302202557736dfab84ff60a58ef0cac69c3956a87b3597ded443e2f736871a9469f5f"
  },
  {
   "keyid": "5cefa0d89516fd4d14fafcf29032dcd1dd473364fa86aa2a3006c02a1904f168",
   "sig": "3046022100d8cd93d9595cda1c335ed0a342e8bb11d2c580a0fd3fb0b647cb9645ca5fb1c602210091b919523537c6d54b9cce7ed94b06a736464aa7d4334f6be0a24d987fd6fa5d"
  }
 ],
 "signed": {
  "_type": "root",
  "spec_version": "1.0.31",
  "version": 1,
  "expires": "2036-01-01T00:00:00Z",
  "consistent_snapshot": true,
  "keys": {
   "b836234bd8796b0d6d247653e61b03c31208543221483cbf948477b7c9d674a7": {
    "keytype": "ecdsa",
    "scheme": "ecdsa-sha2-nistp256",
    "keyval": {
     "public": "-----BEGIN PUBLIC KEY-----\nMFkwEwYHKoZIzj0CAQYIKoZIzj0DAQcDQgAE1LoKUFGj2Te7YrBgNhe18iTYbWUI\nvtcaHEt29wZY/vtnO5Tu6RCDbjpdSlQVFpqula1aUY/26bNuJTBfWiMb/g==\n-----END PUBLIC KEY-----\n"
    }
   },
   "5cefa0d89516fd4d14fafcf29032dcd1dd473364fa86aa2a3006c02a1904f168": {
    "keytype": "ecdsa",
    "scheme": "ecdsa-sha2-nistp256",
    "keyval": {
     "public": "-----BEGIN PUBLIC KEY-----\nMFkwEwYHKoZIzj0CAQYIKoZIzj0DAQcDQgAENns/1jMOUIgQ8S6+ryyCwnHQCD95\nEsb10p0VYjuCVHd7+39N5H2g2+oLlbsGteiqYN0u9vFVXy+FhhijPVV4gw==\n-----END PUBLIC KEY-----\n"
    }
   },
   "8e64b911ba3827b0bcc9c8c0e4f738cdd6cdd106c26cafcaab2f3f46ca69eb5f": {
    "keytype": "ecdsa",
    "scheme": "ecdsa-sha2-nistp256",
    "keyval": {
     "public": "-----BEGIN PUBLIC KEY-----\nMFkwEwYHKoZIzj0CAQYIKoZIzj0DAQcDQgAE0KlYqYpdp+aOYIWb/2uOxhEPvo6w\nkh2U3Se5JwCQo1f43NYmMnDZcK9pQmdI/1KEGhg4zeZJXbu7RmdUGWfh1A==\n-----END PUBLIC KEY-----\n"
    }
   },
   "ee1f316e0b7f77ff06281f3bb6b09c27d595fa9e589f5245af34d4cd729a9e1d": {
    "keytype": "ecdsa",
    "scheme": "ecdsa-sha2-nistp256",
    "keyval": {
     "public": "-----BEGIN PUBLIC KEY-----\nMFkwEwYHKoZIzj0CAQYIKoZIzj0DAQcDQgAEIed4blXMMJKoZa4DwawJb7HzJukG\nQGTgJGc+u5S5BGAjx5unW3KspzlYq+Whm5MIsg0KEDEOoQosgfoh979cgQ==\n-----END PUBLIC KEY-----\n"
    }
   },
   "98756127c3a41a8e2218aa836b40bc7ddbbe773735e0e1d8b4b2c518b0ff9b03": {
    "keytype": "ed25519",
    "scheme": "ed25519",
    "keyval": {
     "public": "7769e3b0616827c3d51aa89d8ea5a23002c391ccf83df3b7b0d140a69da2a7fe"
    }
   },
   "38f3e9570f1634d29c21eceb6bb53c2ddb67c01b5b03cac832d40ca4844bd877": {
    "keytype": "ed25519",
    "scheme": "ed25519",
    "keyval": {
     "public": "abe0db9a4574bf87918765911c57ef81e30973e2310f193382a9301adb1a7752"
    }
   },
   "eb18f7a0d269da630a77e9fded514bec362e8734182ef7a1175e22a007c236c6": {
    "keytype": "ed25519",
    "scheme": "ed25519",
    "keyval": {
     "public": "748bb5cfd98868f4a7edb2407030cbd44a8de75f2c5aa784397d9ae556987dcd"
    }
   },
   "be7741676a862e42e46a3f37a866735b2ec22ceeda42d54d2675cbdbd64a8a60": {
    "keytype": "ed25519",
    "scheme": "ed25519",
    "keyval": {
     "public": "1e50c5433a9bfb81e512706bee780d9f976c9cba90a5352f79c01eb221430abd"
    }
   }
  },
  "roles": {
   "root": {
    "keyids": [
     "b836234bd8796b0d6d247653e61b03c31208543221483cbf948477b7c9d674a7",
     "5cefa0d89516fd4d14fafcf29032dcd1dd473364fa86aa2a3006c02a1904f168"
    ],
    "threshold": 2
   },
   "targets": {
    "keyids": [
     "8e64b911ba3827b0bcc9c8c0e4f738cdd6cdd106c26cafcaab2f3f46ca69eb5f",
     "ee1f316e0b7f77ff06281f3bb6b09c27d595fa9e589f5245af34d4cd729a9e1d"
    ],
    "threshold": 2
   },
   "snapshot": {
    "keyids": [
     "98756127c3a41a8e2218aa836b40bc7ddbbe773735e0e1d8b4b2c518b0ff9b03",
     "38f3e9570f1634d29c21eceb6bb53c2ddb67c01b5b03cac832d40ca4844bd877"
    ],
    "threshold": 2
   },
   "timestamp": {
    "keyids": [
     "eb18f7a0d269da630a77e9fded514bec362e8734182ef7a1175e22a007c236c6",
     "be7741676a862e42e46a3f37a866735b2ec22ceeda42d54d2675cbdbd64a8a60"
    ],
    "threshold": 2
   }
  }
 }
}
"#;

// The next root, with new root keys.
pub(crate) const SECOND_ROOT: &str = r#"{
 "signatures": [
  {
   "keyid": "b836234bd8796b0d6d247653e61b03c31208543221483cbf948477b7c9d674a7",
   "sig": "304402202d298eeaff03eff5fcd165b988cc46ab292c19812f769523ae9eb1ebf69de935022004e6709e4f1e91d873045cc1661858b3ba101767e3f541839929ee3d50f6091c"
  },
  {
   "keyid": "5cefa0d89516fd4d14fafcf29032dcd1dd473364fa86aa2a3006c02a1904f168",
   "sig": "304402201a3575a2e56055468227f8bbfb1b1cb77c23f86c3c46b7a595f63a9cf7cfcb9602207358271df742b9cacd46922b9092278e3617e1bd50e4a8397d7385a20ba396e1"
  },
  {
   "keyid": "b515613e3da7be0092f0db4251c39623b3ec6b309a111713f1d48958472a7b3c",
   "sig": "304502207559129c97eea81f33de8fe3b7b52c4237bb8fb38028edff5202644d569a12f60221008f81d86fe7a6cadc19f650b3a9b430774bf974e20225b577c3523e4ef2aa95f0"
  },
  {
   "keyid": "ee3f9a5bb530d6c2035c34d2d48d7794ffb787555ad0394e2a40319f100fe80f",
   "sig": "3046022100f47046b7b6a32fce6df0a7a5b69f341af7a813977b2a6c45ad76fe70c7620851022100a3ce5cfc8f9cbaaf1040fd3d778fb1325544d85100dd3794ae34013cf992459e"
  }
 ],
 "signed": {
  "_type": "root",
  "spec_version": "1.0.31",
  "version": 2,
  "expires": "2036-01-01T00:00:00Z",
  "consistent_snapshot": true,
  "keys": {
   "b515613e3da7be0092f0db4251c39623b3ec6b309a111713f1d48958472a7b3c": {
    "keytype": "ecdsa",
    "scheme": "ecdsa-sha2-nistp256",
    "keyval": {
     "public": "-----BEGIN PUBLIC KEY-----\nMFkwEwYHKoZIzj0CAQYIKoZIzj0DAQcDQgAEVfVzTeDDSLQ2nGyCXh5wKiA33T5T\nuwtOT6PghyapHtF920rv6hGFVGPDztWefO5A5oB70xhhb/QAwmucRTEH5A==\n-----END PUBLIC KEY-----\n"
    }
   },
   "ee3f9a5bb530d6c2035c34d2d48d7794ffb787555ad0394e2a40319f100fe80f": {
    "keytype": "ecdsa",
    "scheme": "ecdsa-sha2-nistp256",
    "keyval": {
     "public": "-----BEGIN PUBLIC KEY-----\nMFkwEwYHKoZIzj0CAQYIKoZIzj0DAQcDQgAEB+cEC3ex2NT/Xu3LEFRUwLz1v3F3\ngDBcACCShcTsASi4zYaomLTy59AJe+u0zAo0Hob82GHwmqmpMp8jMqy6pw==\n-----END PUBLIC KEY-----\n"
    }
   },
   "8e64b911ba3827b0bcc9c8c0e4f738cdd6cdd106c26cafcaab2f3f46ca69eb5f": {
    "keytype": "ecdsa",
    "scheme": "ecdsa-sha2-nistp256",
    "keyval": {
     "public": "-----BEGIN PUBLIC KEY-----\nMFkwEwYHKoZIzj0CAQYIKoZIzj0DAQcDQgAE0KlYqYpdp+aOYIWb/2uOxhEPvo6w\nkh2U3Se5JwCQo1f43NYmMnDZcK9pQmdI/1KEGhg4zeZJXbu7RmdUGWfh1A==\n-----END PUBLIC KEY-----\n"
    }
   },
   "ee1f316e0b7f77ff06281f3bb6b09c27d595fa9e589f5245af34d4cd729a9e1d": {
    "keytype": "ecdsa",
    "scheme": "ecdsa-sha2-nistp256",
    "keyval": {
     "public": "-----BEGIN PUBLIC KEY-----\nMFkwEwYHKoZIzj0CAQYIKoZIzj0DAQcDQgAEIed4blXMMJKoZa4DwawJb7HzJukG\nQGTgJGc+u5S5BGAjx5unW3KspzlYq+Whm5MIsg0KEDEOoQosgfoh979cgQ==\n-----END PUBLIC KEY-----\n"
    }
   },
   "98756127c3a41a8e2218aa836b40bc7ddbbe773735e0e1d8b4b2c518b0ff9b03": {
    "keytype": "ed25519",
    "scheme": "ed25519",
    "keyval": {
     "public": "7769e3b0616827c3d51aa89d8ea5a23002c391ccf83df3b7b0d140a69da2a7fe"
    }
   },
   "38f3e9570f1634d29c21eceb6bb53c2ddb67c01b5b03cac832d40ca4844bd877": {
    "keytype": "ed25519",
    "scheme": "ed25519",
    "keyval": {
     "public": "abe0db9a4574bf87918765911c57ef81e30973e2310f193382a9301adb1a7752"
    }
   },
   "eb18f7a0d269da630a77e9fded514bec362e8734182ef7a1175e22a007c236c6": {
    "keytype": "ed25519",
    "scheme": "ed25519",
    "keyval": {
     "public": "748bb5cfd98868f4a7edb2407030cbd44a8de75f2c5aa784397d9ae556987dcd"
    }
   },
   "be7741676a862e42e46a3f37a866735b2ec22ceeda42d54d2675cbdbd64a8a60": {
    "keytype": "ed25519",
    "scheme": "ed25519",
    "keyval": {
     "public": "1e50c5433a9bfb81e512706bee780d9f976c9cba90a5352f79c01eb221430abd"
    }
   }
  },
  "roles": {
   "root": {
    "keyids": [
     "b515613e3da7be0092f0db4251c39623b3ec6b309a111713f1d48958472a7b3c",
     "ee3f9a5bb530d6c2035c34d2d48d7794ffb787555ad0394e2a40319f100fe80f"
    ],
    "threshold": 2
   },
   "targets": {
    "keyids": [
     "8e64b911ba3827b0bcc9c8c0e4f738cdd6cdd106c26cafcaab2f3f46ca69eb5f",
     "ee1f316e0b7f77ff06281f3bb6b09c27d595fa9e589f5245af34d4cd729a9e1d"
    ],
    "threshold": 2
   },
   "snapshot": {
    "keyids": [
     "98756127c3a41a8e2218aa836b40bc7ddbbe773735e0e1d8b4b2c518b0ff9b03",
     "38f3e9570f1634d29c21eceb6bb53c2ddb67c01b5b03cac832d40ca4844bd877"
    ],
    "threshold": 2
   },
   "timestamp": {
    "keyids": [
     "eb18f7a0d269da630a77e9fded514bec362e8734182ef7a1175e22a007c236c6",
     "be7741676a862e42e46a3f37a866735b2ec22ceeda42d54d2675cbdbd64a8a60"
    ],
    "threshold": 2
   }
  }
 }
}
"#;

// The timestamp.
pub(crate) const TIMESTAMP: &str = r#"{
 "signatures": [
  {
   "keyid": "eb18f7a0d269da630a77e9fded514bec362e8734182ef7a1175e22a007c236c6",
   "sig": "7dd6b58beb3d0fd6d3224300a6166e6a72817346c749465105b30ad18e9bb8f802109a550a0925694f468e81c163a7cfcb5e35291214e86e126beb0309b32508"
  },
  {
   "keyid": "be7741676a862e42e46a3f37a866735b2ec22ceeda42d54d2675cbdbd64a8a60",
   "sig": "ee2dc970b18e8350326cad9113182aea47feaca6efde28e5f2cd1ae5b7d3a9fd1b2632588fd12f6d82a3724cf10fcb2c81a22be106b58f64010e3f7a15f3e601"
  }
 ],
 "signed": {
  "_type": "timestamp",
  "spec_version": "1.0.31",
  "version": 5,
  "expires": "2035-01-01T00:00:00Z",
  "meta": {
   "snapshot.json": {
    "length": 787,
    "hashes": {
     "sha256": "e9ce59b917af03aea2888eddf38d57c66c3f28d0f1c71a23341c7c1eb3d19487"
    },
    "version": 4
   }
  }
 }
}
"#;

// The snapshot.
pub(crate) const SNAPSHOT: &str = r#"{
 "signatures": [
  {
   "keyid": "98756127c3a41a8e2218aa836b40bc7ddbbe773735e0e1d8b4b2c518b0ff9b03",
   "sig": "83956a9e913547b6b05c14781dadd43e26da4238f757401dd284cf1ec1eeaa06ab5b629e3f56fe2975701a9dcfc446203f1687439f8336899a490a9610bf850d"
  },
  {
   "keyid": "38f3e9570f1634d29c21eceb6bb53c2ddb67c01b5b03cac832d40ca4844bd877",
   "sig": "4568d9565908305a27bf2de5132b23177e51d01c30c16c567f65c66d7e1d6cc29855aec3a296a5c735779a5a8cb3ec1ca4d16cdeec8f108033af3af0aa8caf04"
  }
 ],
 "signed": {
  "_type": "snapshot",
  "spec_version": "1.0.31",
  "version": 4,
  "expires": "2035-01-01T00:00:00Z",
  "meta": {
   "targets.json": {
    "length": 799,
    "hashes": {
     "sha256": "d66c8e1564adb4cccb0da520fba46c1233052999ac6cd16bbcb852ccba26044b"
    },
    "version": 3
   }
  }
 }
}
"#;

// The targets document.
pub(crate) const TARGETS: &str = r#"{
 "signatures": [
  {
   "keyid": "8e64b911ba3827b0bcc9c8c0e4f738cdd6cdd106c26cafcaab2f3f46ca69eb5f",
   "sig": "3044022073e1836d4f88a2833110e6cbbd2982163340a794da7a1414557577135856823a0220279516d45f11dd2188b1e5aa362729833824281323f41bf285ca8b8d72c28268"
  },
  {
   "keyid": "ee1f316e0b7f77ff06281f3bb6b09c27d595fa9e589f5245af34d4cd729a9e1d",
   "sig": "304402207c91bda5d248757e650dc2234bc360574e7ad0fd41556d59cfc22b53f288405d02204d78250186421eb9d80b827357e89b775ff1d0b0875f7266edce336b74278914"
  }
 ],
 "signed": {
  "_type": "targets",
  "spec_version": "1.0.31",
  "version": 3,
  "expires": "2036-01-01T00:00:00Z",
  "targets": {
   "trusted_root.json": {
    "length": 73,
    "hashes": {
     "sha256": "cb300e403aa71d48b0775bb1baf17a316e72a0b23d64ada9af987bdb8b2e0a4c"
    }
   }
  }
 }
}
"#;

// The trust file.
pub(crate) const TRUST: &str =
    r#"{"mediaType":"application/vnd.dev.sigstore.trustedroot+json;version=0.1"}"#;

// The bundle.
pub(crate) const BUNDLE: &str = r#"{
 "mediaType": "application/vnd.dev.sigstore.bundle.v0.3+json",
 "verificationMaterial": {
  "publicKey": {
   "hint": "wJneLw=="
  }
 },
 "messageSignature": {
  "messageDigest": {
   "algorithm": "SHA2_256",
   "digest": "OBES+ouMCnyXy9x1YhvrPgN7prmutMr2sALSzhoOixQ="
  },
  "signature": "MEUCIA04N4lafB+qhn1lv5bMav2VF7xOW0nSPFa7sUmX6bTYAiEA4nT9CmGKWehbXSk9hU6IK35/CMa0v2b4N5kqkRMVeuk="
 }
}
"#;

// What is released.
pub(crate) const RELEASE: &str = r#"The release that is verified.
"#;

// The policy.
pub(crate) const POLICY: &str =
    r#"key MFkwEwYHKoZIzj0CAQYIKoZIzj0DAQcDQgAEt9UKj8X76s/hHgvObGT8dKTVXTFQhrSvWTythngXJ0ywDFu+248tkgn/oEVAwo0K5fT9azhUu4a7lJFF5VQNOA==
skip tlog
"#;

// The rows of its keys and signatures, in the order in which a verification asks for them.
pub(crate) const ROWS: &str =
    r#"armor key LS0tLS1CRUdJTiBQVUJMSUMgS0VZLS0tLS0KTUZrd0V3WUhLb1pJemowQ0FRWUlLb1pJemowREFRY0RRZ0FFMUxvS1VGR2oyVGU3WXJCZ05oZTE4aVRZYldVSQp2dGNhSEV0Mjl3WlkvdnRuTzVUdTZSQ0RianBkU2xRVkZwcXVsYTFhVVkvMjZiTnVKVEJmV2lNYi9nPT0KLS0tLS1FTkQgUFVCTElDIEtFWS0tLS0t MFkwEwYHKoZIzj0CAQYIKoZIzj0DAQcDQgAE1LoKUFGj2Te7YrBgNhe18iTYbWUIvtcaHEt29wZY/vtnO5Tu6RCDbjpdSlQVFpqula1aUY/26bNuJTBfWiMb/g==
accept ECDSA_P256_SHA256 BNS6ClBRo9k3u2KwYDYXtfIk2G1lCL7XGhxLdvcGWP77ZzuU7ukQg246XUpUFRaarpWtWlGP9umzbiUwX1ojG/4= HEM1lxw3IaRlHDOyAi+zEDLJ4LTOeuTkd7i/iB8Ap3U= MEUCIQCUM3YrF6+37gJKw6VkT4bbzOdywSsW4SLZcsDn1JLsIwIgJVdzbfq4T/YKWO8MrGnDlWqHs1l97UQ+L3NocalGn18=
armor key LS0tLS1CRUdJTiBQVUJMSUMgS0VZLS0tLS0KTUZrd0V3WUhLb1pJemowQ0FRWUlLb1pJemowREFRY0RRZ0FFTm5zLzFqTU9VSWdROFM2K3J5eUN3bkhRQ0Q5NQpFc2IxMHAwVllqdUNWSGQ3KzM5TjVIMmcyK29MbGJzR3RlaXFZTjB1OXZGVlh5K0ZoaGlqUFZWNGd3PT0KLS0tLS1FTkQgUFVCTElDIEtFWS0tLS0t MFkwEwYHKoZIzj0CAQYIKoZIzj0DAQcDQgAENns/1jMOUIgQ8S6+ryyCwnHQCD95Esb10p0VYjuCVHd7+39N5H2g2+oLlbsGteiqYN0u9vFVXy+FhhijPVV4gw==
accept ECDSA_P256_SHA256 BDZ7P9YzDlCIEPEuvq8sgsJx0Ag/eRLG9dKdFWI7glR3e/t/TeR9oNvqC5W7BrXoqmDdLvbxVV8vhYYYoz1VeIM= HEM1lxw3IaRlHDOyAi+zEDLJ4LTOeuTkd7i/iB8Ap3U= MEYCIQDYzZPZWVzaHDNe0KNC6LsR0sWAoP0/sLZHy5ZFyl+xxgIhAJG5GVI1N8bVS5zOftlLBqc2Rkqn1DNPa+CiTZh/1vpd
accept ECDSA_P256_SHA256 BNS6ClBRo9k3u2KwYDYXtfIk2G1lCL7XGhxLdvcGWP77ZzuU7ukQg246XUpUFRaarpWtWlGP9umzbiUwX1ojG/4= rdpTS2ib0tFG0zgIsBF+Jx+i6UA8uARR+twMxYnhyOk= MEQCIC0pjur/A+/1/NFluYjMRqspLBmBL3aVI66esev2nek1AiAE5nCeTx6R2HMEXMFmGFizuhAXZ+P1QYOZKe49UPYJHA==
accept ECDSA_P256_SHA256 BDZ7P9YzDlCIEPEuvq8sgsJx0Ag/eRLG9dKdFWI7glR3e/t/TeR9oNvqC5W7BrXoqmDdLvbxVV8vhYYYoz1VeIM= rdpTS2ib0tFG0zgIsBF+Jx+i6UA8uARR+twMxYnhyOk= MEQCIBo1daLlYFVGgif4u/sbHLd8I/hsPEa3pZX2Opz3z8uWAiBzWCcd90K5ys1GkiuQkieONhfhvVDkqDl9c4WiC6OW4Q==
armor key LS0tLS1CRUdJTiBQVUJMSUMgS0VZLS0tLS0KTUZrd0V3WUhLb1pJemowQ0FRWUlLb1pJemowREFRY0RRZ0FFVmZWelRlRERTTFEybkd5Q1hoNXdLaUEzM1Q1VAp1d3RPVDZQZ2h5YXBIdEY5MjBydjZoR0ZWR1BEenRXZWZPNUE1b0I3MHhoaGIvUUF3bXVjUlRFSDVBPT0KLS0tLS1FTkQgUFVCTElDIEtFWS0tLS0t MFkwEwYHKoZIzj0CAQYIKoZIzj0DAQcDQgAEVfVzTeDDSLQ2nGyCXh5wKiA33T5TuwtOT6PghyapHtF920rv6hGFVGPDztWefO5A5oB70xhhb/QAwmucRTEH5A==
accept ECDSA_P256_SHA256 BFX1c03gw0i0Npxsgl4ecCogN90+U7sLTk+j4IcmqR7RfdtK7+oRhVRjw87VnnzuQOaAe9MYYW/0AMJrnEUxB+Q= rdpTS2ib0tFG0zgIsBF+Jx+i6UA8uARR+twMxYnhyOk= MEUCIHVZEpyX7qgfM96P47e1LEI3u4+zgCjt/1ICZE1WmhL2AiEAj4HYb+emytwZ9lCzqbQwd0v5dOICJbV3w1I+TvKqlfA=
armor key LS0tLS1CRUdJTiBQVUJMSUMgS0VZLS0tLS0KTUZrd0V3WUhLb1pJemowQ0FRWUlLb1pJemowREFRY0RRZ0FFQitjRUMzZXgyTlQvWHUzTEVGUlV3THoxdjNGMwpnREJjQUNDU2hjVHNBU2k0ellhb21MVHk1OUFKZSt1MHpBbzBIb2I4MkdId21xbXBNcDhqTXF5NnB3PT0KLS0tLS1FTkQgUFVCTElDIEtFWS0tLS0t MFkwEwYHKoZIzj0CAQYIKoZIzj0DAQcDQgAEB+cEC3ex2NT/Xu3LEFRUwLz1v3F3gDBcACCShcTsASi4zYaomLTy59AJe+u0zAo0Hob82GHwmqmpMp8jMqy6pw==
accept ECDSA_P256_SHA256 BAfnBAt3sdjU/17tyxBUVMC89b9xd4AwXAAgkoXE7AEouM2GqJi08ufQCXvrtMwKNB6G/Nhh8JqpqTKfIzKsuqc= rdpTS2ib0tFG0zgIsBF+Jx+i6UA8uARR+twMxYnhyOk= MEYCIQD0cEa3tqMvzm3wp6W2nzQa96gTl3sqbEWtdv5wx2IIUQIhAKPOXPyPnLqvEED9PXePsTJVRNhRAN03lK40ATz5kkWe
accept ED25519 dIu1z9mIaPSn7bJAcDDL1EqN518sWqeEOX2a5VaYfc0= eyJfdHlwZSI6InRpbWVzdGFtcCIsImV4cGlyZXMiOiIyMDM1LTAxLTAxVDAwOjAwOjAwWiIsIm1ldGEiOnsic25hcHNob3QuanNvbiI6eyJoYXNoZXMiOnsic2hhMjU2IjoiZTljZTU5YjkxN2FmMDNhZWEyODg4ZWRkZjM4ZDU3YzY2YzNmMjhkMGYxYzcxYTIzMzQxYzdjMWViM2QxOTQ4NyJ9LCJsZW5ndGgiOjc4NywidmVyc2lvbiI6NH19LCJzcGVjX3ZlcnNpb24iOiIxLjAuMzEiLCJ2ZXJzaW9uIjo1fQ== fda1i+s9D9bTIkMAphZuanKBc0bHSUZRBbMK0Y6buPgCEJpVCgklaU9GjoHBY6fPy141KRIU6G4Sa+sDCbMlCA==
accept ED25519 HlDFQzqb+4HlEnBr7ngNn5dsnLqQpTUvecAesiFDCr0= eyJfdHlwZSI6InRpbWVzdGFtcCIsImV4cGlyZXMiOiIyMDM1LTAxLTAxVDAwOjAwOjAwWiIsIm1ldGEiOnsic25hcHNob3QuanNvbiI6eyJoYXNoZXMiOnsic2hhMjU2IjoiZTljZTU5YjkxN2FmMDNhZWEyODg4ZWRkZjM4ZDU3YzY2YzNmMjhkMGYxYzcxYTIzMzQxYzdjMWViM2QxOTQ4NyJ9LCJsZW5ndGgiOjc4NywidmVyc2lvbiI6NH19LCJzcGVjX3ZlcnNpb24iOiIxLjAuMzEiLCJ2ZXJzaW9uIjo1fQ== 7i3JcLGOg1AybK2RExgq6kf+rKbv3ijl8s0a5bfTqf0bJjJYj9EvbYKjckzxD8ssgaIr4Qa1j2QBDj96FfPmAQ==
accept ED25519 d2njsGFoJ8PVGqidjqWiMALDkcz4PfO3sNFApp2ip/4= eyJfdHlwZSI6InNuYXBzaG90IiwiZXhwaXJlcyI6IjIwMzUtMDEtMDFUMDA6MDA6MDBaIiwibWV0YSI6eyJ0YXJnZXRzLmpzb24iOnsiaGFzaGVzIjp7InNoYTI1NiI6ImQ2NmM4ZTE1NjRhZGI0Y2NjYjBkYTUyMGZiYTQ2YzEyMzMwNTI5OTlhYzZjZDE2YmJjYjg1MmNjYmEyNjA0NGIifSwibGVuZ3RoIjo3OTksInZlcnNpb24iOjN9fSwic3BlY192ZXJzaW9uIjoiMS4wLjMxIiwidmVyc2lvbiI6NH0= g5VqnpE1R7awXBR4Ha3UPibaQjj3V0Ad0oTPHsHuqgarW2KeP1b+KXVwGp3PxEYgPxaHQ5+DNomaSQqWEL+FDQ==
accept ED25519 q+DbmkV0v4eRh2WRHFfvgeMJc+IxDxkzgqkwGtsad1I= eyJfdHlwZSI6InNuYXBzaG90IiwiZXhwaXJlcyI6IjIwMzUtMDEtMDFUMDA6MDA6MDBaIiwibWV0YSI6eyJ0YXJnZXRzLmpzb24iOnsiaGFzaGVzIjp7InNoYTI1NiI6ImQ2NmM4ZTE1NjRhZGI0Y2NjYjBkYTUyMGZiYTQ2YzEyMzMwNTI5OTlhYzZjZDE2YmJjYjg1MmNjYmEyNjA0NGIifSwibGVuZ3RoIjo3OTksInZlcnNpb24iOjN9fSwic3BlY192ZXJzaW9uIjoiMS4wLjMxIiwidmVyc2lvbiI6NH0= RWjZVlkIMFonvy3lEysjF35R0BwwwWxWf2XGbX4dbMKYVa7DopalxzV3mlqMs+wcpNFs3uyPEIAzrzrwqoyvBA==
armor key LS0tLS1CRUdJTiBQVUJMSUMgS0VZLS0tLS0KTUZrd0V3WUhLb1pJemowQ0FRWUlLb1pJemowREFRY0RRZ0FFMEtsWXFZcGRwK2FPWUlXYi8ydU94aEVQdm82dwpraDJVM1NlNUp3Q1FvMWY0M05ZbU1uRFpjSzlwUW1kSS8xS0VHaGc0emVaSlhidTdSbWRVR1dmaDFBPT0KLS0tLS1FTkQgUFVCTElDIEtFWS0tLS0t MFkwEwYHKoZIzj0CAQYIKoZIzj0DAQcDQgAE0KlYqYpdp+aOYIWb/2uOxhEPvo6wkh2U3Se5JwCQo1f43NYmMnDZcK9pQmdI/1KEGhg4zeZJXbu7RmdUGWfh1A==
accept ECDSA_P256_SHA256 BNCpWKmKXafmjmCFm/9rjsYRD76OsJIdlN0nuScAkKNX+NzWJjJw2XCvaUJnSP9ShBoYOM3mSV27u0ZnVBln4dQ= SOFHZVb533Fnd14t4xPRonBXVl0pX4uofF45G0h9ah4= MEQCIHPhg21PiKKDMRDmy70pghYzQKeU2noUFFV1dxNYVoI6AiAnlRbUXxHdIYix5ao2JymDOCQoEyP0G/KFyouNcsKCaA==
armor key LS0tLS1CRUdJTiBQVUJMSUMgS0VZLS0tLS0KTUZrd0V3WUhLb1pJemowQ0FRWUlLb1pJemowREFRY0RRZ0FFSWVkNGJsWE1NSktvWmE0RHdhd0piN0h6SnVrRwpRR1RnSkdjK3U1UzVCR0FqeDV1blczS3NwemxZcStXaG01TUlzZzBLRURFT29Rb3NnZm9oOTc5Y2dRPT0KLS0tLS1FTkQgUFVCTElDIEtFWS0tLS0t MFkwEwYHKoZIzj0CAQYIKoZIzj0DAQcDQgAEIed4blXMMJKoZa4DwawJb7HzJukGQGTgJGc+u5S5BGAjx5unW3KspzlYq+Whm5MIsg0KEDEOoQosgfoh979cgQ==
accept ECDSA_P256_SHA256 BCHneG5VzDCSqGWuA8GsCW+x8ybpBkBk4CRnPruUuQRgI8ebp1tyrKc5WKvloZuTCLINChAxDqEKLIH6Ife/XIE= SOFHZVb533Fnd14t4xPRonBXVl0pX4uofF45G0h9ah4= MEQCIHyRvaXSSHV+ZQ3CI0vDYFdOetD9QVVtWc/CK1PyiEBdAiBNeCUBhkIeudgLgnNX6Jt3X/HQsIdfcmbtzjNrdCeJFA==
accept ECDSA_P256_SHA256 BLfVCo/F++rP4R4Lzmxk/HSk1V0xUIa0r1k8rYZ4FydMsAxbvtuPLZIJ/6BFQMKNCuX0/Ws4VLuGu5SRReVUDTg= OBES+ouMCnyXy9x1YhvrPgN7prmutMr2sALSzhoOixQ= MEUCIA04N4lafB+qhn1lv5bMav2VF7xOW0nSPFa7sUmX6bTYAiEA4nT9CmGKWehbXSk9hU6IK35/CMa0v2b4N5kqkRMVeuk=
"#;

// The trust file's name under consistent names.
pub(crate) const TRUST_NAME: &str =
    "cb300e403aa71d48b0775bb1baf17a316e72a0b23d64ada9af987bdb8b2e0a4c.trusted_root.json";
